// Chains of calls of wickpollen_run, end to end: which streams hosts in C see accepted, and what the calls answer together. Definitions in specs/, theorems in proofs/; no code.

#![tactic(auto)]
