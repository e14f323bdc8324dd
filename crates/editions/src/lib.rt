// Document 02, 9/13: "In the old one nothing changes". Sending and receiving before that request in specs/, and that edition 0 does what they did
// in proofs/. Laws only.
#![tactic(auto)]
