// The gateway's calls: what they are told and answer. Their code stands in the crates above.
#![tactic(auto)]

use model::LeadTimes;
use refusal::Refusal;

// What work answers: the count done, why it stopped where it did, and how many bytes were written. Taking a frame, the start call, commit
// and set up answer how many bytes were written, or why they refuse.
#[derive(Clone, Copy)]
pub struct Worked {
    pub count: u32,
    pub stopped: Option<Refusal>,
    pub written: usize,
}

// What set up is told: document 01's N, own number, supplier, opening stock, last hour H, queue places Q and outstanding
// places U, and document 02's lead times, each wider than its range, so that every value outside is refused.
#[derive(Clone, Copy)]
pub struct Opening {
    pub n: u32,
    pub own: u32,
    pub supplier: u32,
    pub stock: u32,
    pub last: u32,
    pub q: u32,
    pub u: u32,
    pub hours: LeadTimes,
}
