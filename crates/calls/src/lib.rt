// The meaning of one call of the converter over bytes, with the theorems that join the bytes to trees; no code.

#![tactic(auto)]
