// Rules typed as text (document 02, §1): what a rule text is and which rules it writes, in specs/; theorems in proofs/; no code.

#![tactic(auto)]
