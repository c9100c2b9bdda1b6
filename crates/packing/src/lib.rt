// The bytes of the sheet that a rule text has. Statements in specs/, theorems in proofs/; no code.

#![tactic(auto)]
