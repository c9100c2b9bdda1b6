// Content models from a DTD (document 02, §6): what they are and mean, in specs/; theorems in proofs/; no code.

#![tactic(auto)]
