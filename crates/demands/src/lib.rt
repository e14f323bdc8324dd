// What the user demands of sending and receiving together: words in specs/, theorems in proofs/. Laws only.
#![tactic(auto)]
