// What a byte string is: a frame, or refused for the first reason that holds.
#![tactic(auto)]

ghost use Rattle.std.specs.Prelude.{◌≡◌, Bool, ◌+◌, ◌<◌, ◌≤◌, length, get_or};
ghost use Rattle.buffer.specs.Slice.{part};
ghost use Rattle.frame.specs.Layout.{widths, whole_length};
ghost use Rattle.frame.specs.Reasons.{reading, read_in, fields_reading, fields_of, frame_of};
ghost use Rattle.frame.specs.Inside.Steps.{stored, no_fields};

use buffer::{Number, array_at};
use frame::forms::FormError;
use frame::tables::{sense_of, whole_length, width_of};
use frame::{Fields, Frame};
use model::{Message, kind_of};
use rules::{gateways_agree, lamp_fits, map_fits, sense_fits};

// Reads a byte string.
pub fn read(bytes: &[u8]) -> Result<Frame, FormError>
    ensures { result ≡ reading bytes.now }
{
    if bytes.len() < 2 {
        return Err(FormError::TooShort);
    }
    let map = bytes[0];
    let kind = bytes[1];
    if !map_fits(map, kind) {
        return Err(FormError::WrongMap);
    }
    if bytes.len() != whole_length(map) {
        return Err(FormError::WrongLength);
    }
    judge(map, walk(bytes, map))
}

// Reads a byte string in a call that takes only some frames, as a test of them says.
pub fn read_where<F: Fn(Frame) -> bool>(bytes: &[u8], taken: F) -> Result<Frame, FormError>
    requires { F.IsAlwaysCallable taken }
    ensures { (is_taken : Frame → Bool)
        → ((f : Frame) (b : Bool) → F.post taken f b → b ≡ is_taken f)
        → result ≡ read_in is_taken (reading bytes.now) }
{
    let frame = read(bytes)?;
    if taken(frame) {
        Ok(frame)
    } else {
        Err(FormError::NotTaken)
    }
}

// The last three reasons.
fn judge(map: u8, fields: Fields) -> Result<Frame, FormError>
    ensures { result ≡ fields_reading map fields }
{
    if !sense_fits(map, fields.sense) {
        return Err(FormError::WrongSense);
    }
    let frame = frame_of(fields);
    let message = frame.message;
    if !lamp_fits(message) {
        return Err(FormError::WrongLamp);
    }
    if !gateways_agree(message.from, message.to, message.kind) {
        return Err(FormError::WrongGateways);
    }
    Ok(frame)
}

// Reads as many fields as the map has one bits, in bit order. The one bits are counted first, and the loop ends behind the last of them:
// so the number of fields follows from the count, as the layout says, and not from the number of bits.
fn walk(bytes: &[u8], map: u8) -> Fields
    requires { (map ≡ get_or bytes.now 0 0) × (length bytes.now ≡ whole_length map) }
    ensures { result ≡ fields_of bytes.now }
{
    let mut fields = no_fields();
    let mut left = u8::count_ones(map);
    let mut rest = map;
    let mut bit = 0;
    let mut at = 1;
    while left > 0 {
        if rest % 2 == 1 {
            fields = store(bytes, at, bit, fields);
            at += width_of(bit);
            left -= 1;
        }
        rest = rest / 2;
        bit += 1;
    }
    fields
}

fn no_fields() -> Fields
    ensures { result ≡ no_fields }
{
    Fields {
        kind: 0,
        from: 0,
        to: 0,
        hour: 0,
        origin: 0,
        lamp: [0; 18],
        quantity: 0,
        sense: 0,
    }
}

// The fields with the one of that bit read at a position.
fn store(bytes: &[u8], at: usize, bit: usize, fields: Fields) -> Fields
    requires { (bit < 8) × (at + get_or widths bit 0 ≤ length bytes.now) }
    ensures { result ≡ stored bit (part bytes.now at (get_or widths bit 0)) fields }
{
    let mut next = fields;
    match bit {
        0 => next.kind = u8::read(bytes, at),
        1 => next.from = u8::read(bytes, at),
        2 => next.to = u8::read(bytes, at),
        3 => next.hour = u32::read(bytes, at),
        4 => next.origin = u8::read(bytes, at),
        5 => next.lamp = array_at(bytes, at),
        6 => next.quantity = u16::read(bytes, at),
        _ => next.sense = u8::read(bytes, at),
    }
    next
}

fn frame_of(fields: Fields) -> Frame
    ensures { result ≡ frame_of fields }
{
    let kind = kind_of(fields.kind, fields.origin, fields.quantity);
    let lamp = fields.lamp;
    let message = Message {
        hour: fields.hour,
        from: fields.from,
        to: fields.to,
        kind,
        lamp,
    };
    let sense = sense_of(fields.sense);
    Frame { message, sense }
}
