// Rules printed as text (document 02, §1): the text of rules, in specs/; that it is a text of theirs, in proofs/; no code.

#![tactic(auto)]
