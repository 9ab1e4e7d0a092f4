// Specifications only: specs/ has what a sound NDX index is, the test that accepts exactly the sound indexes, and laws of both.
#![tactic(auto)]
