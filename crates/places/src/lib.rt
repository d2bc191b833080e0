// The places of a gateway's memory: looking through them, taking one out, the least hours in them.
#![tactic(auto)]

pub mod changes; // changes.rt: changes of the memory
pub mod least; // least.rt: the least hours in the memory
pub mod place; // place.rt: the two kinds of places
pub mod search; // search.rt: looking through the places
