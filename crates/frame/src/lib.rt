// Frames: how a message and its sense stand as bytes. The tables, what each kind keeps to, and the checks of a frame's numbers
// and hour; the crates reader and writer read and write them.
#![tactic(auto)]

use model::Message;

pub mod forms; // forms.rt: the reasons for which a byte string is refused
pub mod lamps; // lamps.rt: a lamp's bytes
pub mod pieces; // pieces.rt: frames one behind the other
pub mod tables; // tables.rt: the table of kinds, the widths of the fields and the whole length

// What a frame says of its message. A plain message has no sense.
#[derive(Clone, Copy, PartialEq, Eq)]
pub enum Sense {
    Plain,
    Cancel,
    Acknowledgment,
    CancelAcknowledgment,
}

#[derive(Clone, Copy, PartialEq, Eq)]
pub struct Frame {
    pub message: Message,
    pub sense: Sense,
}

// The fields of a frame as numbers. A field whose bit does not stand in the map is zero.
#[derive(Clone, Copy)]
pub struct Fields {
    pub kind: u8,
    pub from: u8,
    pub to: u8,
    pub hour: u32,
    pub origin: u8,
    pub lamp: [u8; 18],
    pub quantity: u16,
    pub sense: u8,
}
