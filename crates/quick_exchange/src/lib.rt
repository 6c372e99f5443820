// No code: specs/ has the exchange of two ends, proofs/ what is proved of it.

#![tactic(auto)]
