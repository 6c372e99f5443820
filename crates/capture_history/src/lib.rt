// No code: specs/ says what a listing of a capture is to the table, as a history of calls, proofs/ that its lines are the answers to them.

#![tactic(auto)]
