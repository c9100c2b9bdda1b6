// The outline of a program that is being read: of every part its bytes and its nesting in place of the part; and what is promised of it, in specs/; theorems in proofs/; no code.

#![tactic(auto)]
