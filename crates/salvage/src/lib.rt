// The meaning of a salvage run over a whole stream. Definitions in specs/, theorems in proofs/; no code.

#![tactic(auto)]
