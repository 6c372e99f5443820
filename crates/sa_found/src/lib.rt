// No code: proofs/ shows what an SA payload's body that reads holds: its exchange, its sets of one proposal or two, and what numbers find in it.

#![tactic(auto)]
