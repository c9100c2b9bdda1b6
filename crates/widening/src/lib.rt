// Wider bounds: a sheet that keeps the narrower ones is the same sheet and runs to the same answers. Definitions in specs/, theorems in proofs/; no code.

#![tactic(auto)]
