// No code: proofs/ shows what stands where in attributes that read, and that whole pairs and single attributes may stand in any order.

#![tactic(auto)]
