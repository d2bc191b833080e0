// Undoing processed events (rollback), and whether there is room for what it sends.
#![tactic(auto)]

pub mod room; // room.rt: counting what would be sent, and whether there is room
pub mod undo; // undo.rt: undoing processed events
