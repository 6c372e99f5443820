// No code: specs/ has a responder's calls and what a message of its own is, proofs/ that every message it writes is that.

#![tactic(auto)]
