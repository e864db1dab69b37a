// Theorems only: stated in specs/, proved in proofs/. No function.
#![tactic(auto)]
