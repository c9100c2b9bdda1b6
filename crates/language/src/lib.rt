// The language of an expression, as rows of atoms without brackets: a definition in specs/, theorems in proofs/; no code.

#![tactic(auto)]
