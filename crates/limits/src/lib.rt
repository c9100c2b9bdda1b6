// The limits of document 01 that more than one crate's definitions name; no code.

#![tactic(auto)]
