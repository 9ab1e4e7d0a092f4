// Specifications only: specs/ has the laws of lookup on a sound index.
#![tactic(auto)]
