// What a yes-or-no answer tells: a definition for every test; no code.

#![tactic(auto)]
