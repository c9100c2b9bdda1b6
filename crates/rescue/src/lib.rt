// The meaning of a call of the salvage run, over a part of the stream and with lent rooms. Definitions in specs/, theorems in proofs/; no code.

#![tactic(auto)]
