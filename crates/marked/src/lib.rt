// Where the sign of a fault stands in the text that its sheet is written from: what is promised of witness, signs and posts together, in specs/; a theorem in proofs/; no code.

#![tactic(auto)]
