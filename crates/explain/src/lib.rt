// Why a token of a schedule was refused: what stands there instead of one; and bytes of a schedule as they can be read.

#![tactic(auto)]

mod front;
mod shown;

pub use front::say_what_stands;
pub use shown::{say_shown, show};
