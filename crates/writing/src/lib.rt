// What is promised of rules written as a sheet. Statements in specs/, theorems in proofs/.

#![tactic(auto)]
