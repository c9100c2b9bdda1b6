// When a run is steady: characters that leave it as it is. Definitions and laws alone.

#![tactic(auto)]
