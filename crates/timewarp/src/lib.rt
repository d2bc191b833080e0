// The theory of the optimistic run, events and rounds together: definitions in specs/, laws in proofs/. There is no code.
#![tactic(auto)]
