// The worked examples that document 01 marks with a star, as one table under one statement; no code.

#![tactic(auto)]
