// The machine that reads rule texts: one step for each token, and what is promised of it, in specs/; theorems in proofs/; no code.

#![tactic(auto)]
