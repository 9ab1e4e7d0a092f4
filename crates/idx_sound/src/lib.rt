// Specifications only: specs/ says what a sound index is, and has the audit's test, page by page, with the proof that it accepts exactly the sound ones.
#![tactic(auto)]
