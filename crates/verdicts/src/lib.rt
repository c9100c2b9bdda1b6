// What is told of a text token by token, as one who reads it once can find it out. Statements in specs/, theorems in proofs/; no code.

#![tactic(auto)]
