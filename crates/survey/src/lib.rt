// What listing and range answer on sound tables stands in proofs/; there is no code here.
#![tactic(auto)]
