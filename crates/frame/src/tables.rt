// The table of kinds, the widths of the fields and the whole length that follows from them, and the senses.
ghost use Rattle.std.specs.Prelude.{◌≡◌, ◌<◌, ◌/◌, get_or};
ghost use Rattle.frame.specs.Layout.{widths, odd, whole_length};
ghost use Rattle.frame.specs.Kinds.{map_of, map_of_kind, has_lamp, sense_number, sense_of};

use crate::{Frame, Sense};
use model::kind_number;

// The map of each kind.
const MAPS: [u8; 7] = [63, 63, 63, 79, 7, 15, 15];

// The widths of the fields, in bytes.
#[derive(Clone, Copy)]
pub struct Widths {
    pub kind: usize,
    pub from: usize,
    pub to: usize,
    pub hour: usize,
    pub origin: usize,
    pub lamp: usize,
    pub quantity: usize,
    pub sense: usize,
}

// The whole length, the reader's walk and the writer go by these.
pub const WIDTHS: Widths = Widths {
    kind: 1,
    from: 1,
    to: 1,
    hour: 4,
    origin: 1,
    lamp: 18,
    quantity: 2,
    sense: 1,
};

// Where fields stand in the frame of an event, behind the map and the fields before them: the hour; then the origin, which a lamp
// follows, or else the quantity, and what follows that.
pub const HOUR_PLACE: usize = 1 + WIDTHS.kind + WIDTHS.from + WIDTHS.to;

pub const ORIGIN_PLACE: usize = HOUR_PLACE + WIDTHS.hour;

pub const QUANTITY_PLACE: usize = HOUR_PLACE + WIDTHS.hour;

pub const QUANTITY_END: usize = QUANTITY_PLACE + WIDTHS.quantity;

// The whole lengths of the plain messages without a lamp: a Start; an Lvt, and an Update, which has the same fields; a Restock.
pub const START_LENGTH: usize = HOUR_PLACE;

pub const LVT_LENGTH: usize = HOUR_PLACE + WIDTHS.hour;

pub const RESTOCK_LENGTH: usize = QUANTITY_END;

// The map of the kind with that number; there is none past 6.
pub fn map_of_kind(kind: u8) -> u8
    ensures { result ≡ map_of_kind kind }
{
    MAPS.get(kind as usize).copied().unwrap_or(0)
}

// The bits of the fields that not every kind has, by their values in a map.
pub const HOUR: u8 = 8;

pub const ORIGIN: u8 = 16;

pub const LAMP: u8 = 32;

pub const QUANTITY: u8 = 64;

pub const SENSE: u8 = 128;

// Whether a bit stands in a map.
pub fn stands(bit: u8, map: u8) -> bool
    requires { 0 < bit }
    ensures { result ≡ odd (map / bit) }
{
    map / bit % 2 == 1
}

// Whether the kind has a lamp, by its map.
pub fn has_lamp(kind: u8) -> bool
    ensures { result ≡ has_lamp kind }
{
    stands(LAMP, map_of_kind(kind))
}

// The width of the field of a bit.
pub fn width_of(bit: usize) -> usize
    requires { bit < 8 }
    ensures { result ≡ get_or widths bit 0 }
{
    match bit {
        0 => WIDTHS.kind,
        1 => WIDTHS.from,
        2 => WIDTHS.to,
        3 => WIDTHS.hour,
        4 => WIDTHS.origin,
        5 => WIDTHS.lamp,
        6 => WIDTHS.quantity,
        _ => WIDTHS.sense,
    }
}

// The whole length of a frame with that map: the map's own byte and the fields whose bit stands. Summed in 32 bits, which takes less
// code than 64.
pub fn whole_length(map: u8) -> usize
    ensures { result ≡ whole_length map }
{
    let mut size: u32 = 1;
    let mut rest = map;
    for bit in 0..8 {
        if rest % 2 == 1 {
            size += width_of(bit) as u32;
        }
        rest = rest / 2;
    }
    size as usize
}

// The map of a frame: its kind's, with bit 7 added where there is a sense.
pub fn map_of(frame: Frame) -> u8
    ensures { result ≡ map_of frame }
{
    let message = frame.message;
    let kind = message.kind;
    let sense = frame.sense;
    let plain = map_of_kind(kind_number(kind));
    if sense_number(sense) == 0 {
        return plain;
    }
    plain + SENSE
}

pub fn sense_number(sense: Sense) -> u8
    ensures { result ≡ sense_number sense }
{
    match sense {
        Sense::Plain => 0,
        Sense::Cancel => 1,
        Sense::Acknowledgment => 2,
        Sense::CancelAcknowledgment => 3,
    }
}

pub fn sense_of(number: u8) -> Sense
    ensures { result ≡ sense_of number }
{
    match number {
        1 => Sense::Cancel,
        2 => Sense::Acknowledgment,
        3 => Sense::CancelAcknowledgment,
        _ => Sense::Plain,
    }
}
