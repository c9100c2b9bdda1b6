// Grouping is free: what regrouping concatenations and unions leaves as it was. Definitions in specs/, theorems in proofs/; no code.

#![tactic(auto)]
