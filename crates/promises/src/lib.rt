// Theorems alone: specs/ has them.

#![tactic(auto)]
