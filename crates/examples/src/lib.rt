// Specifications only: specs/Examples.antt holds document 01's examples that are proved of the rules.
#![tactic(auto)]
