// The meaning of a run over events: programs, visits, attributed trees and the machine, with the theorems that tie them; no code.

#![tactic(auto)]
