// Of every text: the rules that it writes, and no others, or the byte at which no continuation is possible. Statements in specs/, theorems in proofs/; no code.

#![tactic(auto)]
