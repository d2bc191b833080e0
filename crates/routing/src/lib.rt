// Routing: the gateways that a gateway hears from and tells in a round, by Figure 2 of document 000. Here are the types; the
// definitions are in specs/ and their laws in proofs/. The code is the crate neighbours.
#![tactic(auto)]

pub mod at_most_two; // at_most_two.rt: at most two values, as the gateways that one tells

use crate::at_most_two::AtMostTwo;

// The gateways that one hears from and those that it tells, each in Figure 2's order.
#[derive(Clone, Copy)]
pub struct Neighbours {
    pub from: AtMostTwo<u32>,
    pub to: AtMostTwo<u32>,
}

// The number of arcs and the messages of a round.
#[derive(Clone, Copy)]
pub struct Totals {
    pub arcs: u32,
    pub messages: u32,
}
