// A text of rules while it is read: the tokens so far and where each ends, the rules that it can still lead to, and what is told then: 40, or 41 with its byte. Definitions in specs/; theorems in proofs/; no code.

#![tactic(auto)]
