// A gateway's lent memory: what stands where in its bytes, and when it is sound. The crates decoding, encoding and header read and
// write the bytes, soundness tests them.
#![tactic(auto)]

ghost use Rattle.std.specs.Prelude.{◌≡◌};
ghost use Rattle.refusal.specs.declared.Refusal.TheVariants.{NotSound};

use model::{LeadTimes, Message, State};
use refusal::Refusal;

// The sizes in the memory, in bytes, as the definitions of its layout have them: the header; a queue place
// and an outstanding place; in a place of either kind the mark and the message, in a queue place then a state, and zeros.
pub const HEADER_SIZE: usize = 256;

pub const QUEUE_SIZE: usize = 64;

pub const OUTSTANDING_SIZE: usize = 32;

pub const MESSAGE_SIZE: usize = 30;

pub const STATE_SIZE: usize = 16;

pub const ZEROS_AT: usize = MESSAGE_SIZE + STATE_SIZE;

// Where the header counts the queue places and the outstanding places that are used, and where its state stands.
pub const QUEUED_AT: usize = 10;

pub const OUTSTANDING_COUNT_AT: usize = 12;

pub const STATE_AT: usize = 38;

// What set up was told. The letters are document 01's: n gateways, last hour H, q queue places, u outstanding places; then the lead times.
#[derive(Clone, Copy, PartialEq, Eq)]
pub struct Settings {
    pub n: u8,
    pub own: u8,
    pub supplier: u8,
    pub last: u32,
    pub q: u16,
    pub u: u16,
    pub hours: LeadTimes,
}

// What a queue place holds: a plain message not processed, one that is, or a waiting cancel.
#[derive(Clone, Copy, PartialEq, Eq)]
pub enum Mark {
    Pending,
    Processed,
    Waiting,
}

// A queue place: the message, what it is there as, and for a processed one the state before it, its checkpoint.
#[derive(Clone, Copy, PartialEq, Eq)]
pub struct Entry {
    pub message: Message,
    pub mark: Mark,
    pub before: State,
}

// An outstanding place: a message that was sent and not yet acknowledged, or the cancel of one.
#[derive(Clone, Copy, PartialEq, Eq)]
pub struct Sent {
    pub message: Message,
    pub cancel: bool,
}

// Where a gateway stands in a round: it waits for its Starts, it has sent its Starts and counts, it has stopped.
#[derive(Clone, Copy, PartialEq, Eq)]
pub enum Phase {
    Idle,
    Counting,
    Stopped,
}

// A round at a gateway: which Starts (idle) or Lvts (stopped) have come, bit by bit in the order of from or to, and the
// note (the running minimum of hours) until the stop, the value after it.
#[derive(Clone, Copy)]
pub struct Round {
    pub phase: Phase,
    pub arrived: u8,
    pub note: u32,
}

// The header of the memory, with the number of used places of both kinds.
#[derive(Clone, Copy)]
pub struct Header {
    pub settings: Settings,
    pub state: State,
    pub agreed: u32,
    pub round: Round,
    pub queued: u16,
    pub outstanding: u16,
}

// Memory that is not sound, which every call refuses: the header that it has all the same, of zeros where it is too short for one.
#[derive(Clone, Copy)]
pub struct Unsound {
    pub header: Header,
}

impl From<Unsound> for Refusal {
    ghost from_gives = { λ unsound refusal. refusal ≡ NotSound };

    fn from(_unsound: Unsound) -> Refusal {
        Refusal::NotSound
    }
}
