// The bytes that a program has so far while it is read, by where the machine stands; what a token writes of them; and what is promised of that, in specs/; theorems in proofs/; no code.

#![tactic(auto)]
