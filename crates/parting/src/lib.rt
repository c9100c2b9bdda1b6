// Where two bracket strings from one place part, and the first two of them: definitions in specs/, theorems in proofs/; no code.

#![tactic(auto)]
