// What a writer of sheets keeps beside its reader, part by part: definitions in specs/; theorems in proofs/; no code.

#![tactic(auto)]
