// The theory of events in an optimistic run: definitions in specs/, laws in proofs/. There is no code.
#![tactic(auto)]
