// What a salvage call leaves is what its meaning hands back: the state's bytes, and the area where records wait. Theorems in proofs/; no code.

#![tactic(auto)]
