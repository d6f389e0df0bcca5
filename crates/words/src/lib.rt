// Definitions and laws of words and rings, for the crates above; no code.
#![tactic(auto)]
