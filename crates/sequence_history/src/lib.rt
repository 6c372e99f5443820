// No code: specs/ says what is right of sequence numbers by their history, proofs/ that the table answers so.

#![tactic(auto)]
