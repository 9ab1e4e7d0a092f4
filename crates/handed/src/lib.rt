// What a call hands to C, as a record: see specs/Out.antt.
#![tactic(auto)]
