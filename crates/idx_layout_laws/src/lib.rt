// Laws of pages that are written, in specs/: no code.
#![tactic(auto)]
