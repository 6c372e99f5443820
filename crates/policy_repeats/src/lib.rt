// No code: specs/ says what a lawful reply is, with no search in it; proofs/ that policy_lawful finds exactly these, and that our own replies are.

#![tactic(auto)]
