// What a call of the converter costs at most, in visits: the ceiling, of the code. Definitions in specs/, theorems in proofs/; no code.

#![tactic(auto)]
