// That each promise leaves one outcome: definitions in specs/, a theorem for every public function in proofs/; there is no code here.
#![tactic(auto)]
