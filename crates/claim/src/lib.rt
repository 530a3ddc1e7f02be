// Demand 3 as one statement over the calls: specs/Claim.antt says it, proofs/Made.antt proves it. No call stands here.
#![tactic(auto)]
