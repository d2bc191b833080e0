// What several calls do to a gateway's memory: an entry put into its queue place, and messages and cancels sent.
#![tactic(auto)]

pub mod insert; // insert.rt: an entry put into its queue place
pub mod send; // send.rt: sending messages and cancels
