// No code: proofs/ shows that each cause is true of its transform, and that none before it is.

#![tactic(auto)]
