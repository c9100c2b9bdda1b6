// What a call of the salvage run hands back reads back as what it holds. Definitions in specs/, theorems in proofs/; no code.

#![tactic(auto)]
