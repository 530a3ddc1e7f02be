// Runs (a) to (j) of document 01 stand in specs/ as one table and are proved in proofs/ by computation; there is no code here.
#![tactic(auto)]
