// Sheets printed into lent memory (document 02, §1): the printer's answer and the round trip, in specs/; theorems in proofs/; no code.

#![tactic(auto)]
