// Numbers of documents 01 and 02 at their bounds, as one table under one statement; no code.

#![tactic(auto)]
