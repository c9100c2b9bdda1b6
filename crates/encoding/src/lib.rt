// The sheet of rules typed as text: which tags, programs and strings it stores, and the sheet that it is, in specs/; theorems in proofs/; no code.

#![tactic(auto)]
