// The round at a gateway: it begins and finishes; the start call; reading the agreed time. The round's messages are taken by the
// crates take_start, take_lvt and take_update.
#![tactic(auto)]

pub mod agreed; // agreed.rt: reading the agreed time
pub mod start; // start.rt: the start call
pub mod steps; // steps.rt: the steps of a round
