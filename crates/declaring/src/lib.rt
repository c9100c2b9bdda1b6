// Declarations written as a sheet: the rules that they are, and the answer, number and bytes.

#![tactic(auto)]
