// Demand 3, the book of a list of calls, in specs/: no code.
#![tactic(auto)]
