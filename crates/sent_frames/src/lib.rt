// The frames of what is sent and received: statements in specs/, their proofs in proofs/. Laws only.
#![tactic(auto)]
