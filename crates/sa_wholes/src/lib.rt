// No code: specs/ has the attributes of a transform as wholes, single ones and pairs, proofs/ that attributes read exactly where they are that.

#![tactic(auto)]
