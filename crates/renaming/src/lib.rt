// Tags under other numbers (document 02, §1): what two sheets that are the same by name are left with, in specs/; theorems in proofs/; no code.

#![tactic(auto)]
