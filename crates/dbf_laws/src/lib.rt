// Specifications only: specs/ has laws about every call on a table.
#![tactic(auto)]
