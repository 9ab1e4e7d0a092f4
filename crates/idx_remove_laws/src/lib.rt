// Laws of removal, in specs/: no code.
#![tactic(auto)]
