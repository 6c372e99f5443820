// No code: specs/ says over lists what suits, proofs/ that the tests of policy_suits pass exactly there, and what a set that suits has.

#![tactic(auto)]
