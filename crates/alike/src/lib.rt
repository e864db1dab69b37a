// A law only, in specs/: no function.
#![tactic(auto)]
