// Few brackets: how many a bracket string has at most where rule S finds no fault. Definitions in specs/, theorems in proofs/; no code.

#![tactic(auto)]
