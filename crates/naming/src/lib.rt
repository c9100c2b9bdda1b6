// Sheets by name (document 02, §1): the rules that a sheet is, tags by name and strings by bytes, in specs/; theorems in proofs/; no code.

#![tactic(auto)]
