// Where a lamp stands, and the lengths of the frames that have one.
use crate::tables::{ORIGIN_PLACE, WIDTHS};

// Where the lamp begins in a frame that has one, and where it ends.
pub const LAMP_PLACE: usize = ORIGIN_PLACE + WIDTHS.origin;

pub const LAMP_END: usize = LAMP_PLACE + WIDTHS.lamp;

// The whole lengths of the frames with a lamp: a plain message, and one with a sense, which follows the lamp.
pub const PLAIN_LENGTH: usize = LAMP_END;

pub const SENSE_LENGTH: usize = LAMP_END + WIDTHS.sense;
