// Definitions and laws only, in specs/: no function.
#![tactic(auto)]
