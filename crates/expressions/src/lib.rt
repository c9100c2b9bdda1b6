// The meaning of expressions and of rules T and S: definitions in specs/, theorems in proofs/; no code.

#![tactic(auto)]
