// What a token does where a reader of rules stands, in numbers: trees put together by their nodes and depth, and the move of each kind.

#![tactic(auto)]

pub mod figures;
pub mod moves;
