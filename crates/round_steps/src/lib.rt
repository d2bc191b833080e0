// The theory of the rounds that find the agreed time: definitions in specs/, laws in proofs/. There is no code.
#![tactic(auto)]
