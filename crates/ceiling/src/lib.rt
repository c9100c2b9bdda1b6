// The ceiling on visits: how many an event, a token and a call can have at most. Definitions in specs/, theorems in proofs/; no code.

#![tactic(auto)]
