// Laws of insertion on bytes, in specs/: no code.
#![tactic(auto)]
