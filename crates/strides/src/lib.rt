// A step of the salvage run's code is a step of its meaning. Definitions in specs/, theorems in proofs/; no code.

#![tactic(auto)]
