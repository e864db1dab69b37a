// Laws only, in specs/: no function.
#![tactic(auto)]
