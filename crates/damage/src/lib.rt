// Demand 3, a line with flipped bits: definitions in specs/, the theorem in proofs/.
#![tactic(auto)]
