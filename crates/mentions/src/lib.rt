// What a reader of rules has mentioned so far: tags, strings and programs in the order of the text, in specs/; theorems in proofs/; no code.

#![tactic(auto)]
