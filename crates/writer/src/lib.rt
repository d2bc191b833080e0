// What a frame is written as, and frames put one behind the other.
#![tactic(auto)]

pub mod outgoing; // outgoing.rt: frames put one behind the other

ghost use Rattle.std.specs.Prelude.{◌≡◌, ◌+◌, ◌≤◌, ◌<◌, length};
ghost use Rattle.buffer.specs.Slice.{Puts};
ghost use Rattle.buffer.specs.Number.{bytes_of};
ghost use Rattle.frame.specs.Writing.{outcome_of, writing, written};
ghost use Rattle.frame.specs.Inside.Steps.{head_bytes, field_bytes, body_bytes};

use buffer::{Number, copy};
use frame::Frame;
use frame::tables::{
    HOUR, LAMP, ORIGIN, QUANTITY, SENSE, WIDTHS, map_of, sense_number, stands, whole_length,
};
use model::{Message, kind_number, origin_of, quantity_of};
use refusal::Refusal;
use rules::value_refusal;

// Writes a frame at the start of an output, and gives the number of bytes. Where it is refused nothing is written.
pub fn write(out: &mut [u8], frame: Frame) -> Result<usize, Refusal>
    ensures { outcome_of result out.new ≡ writing frame out.old }
{
    value_refusal(frame)?;
    let size = whole_length(map_of(frame));
    if size > out.len() {
        return Err(Refusal::NoRoom);
    }
    Ok(put(out, 0, frame))
}

// Puts a frame into the output from position at on, and gives the position behind it.
pub fn put(out: &mut [u8], at: usize, frame: Frame) -> usize
    requires { at + length (written frame) ≤ length out.old }
    ensures { Puts at (written frame) out.old out.new result }
{
    let map = map_of(frame);
    let behind_head = put_head(out, at, map, frame.message);
    let behind_body = put_body(out, behind_head, map, frame.message);
    put_number(
        out,
        behind_body,
        SENSE,
        WIDTHS.sense,
        map,
        sense_number(frame.sense),
    )
}

// Map, kind, from and to.
fn put_head(out: &mut [u8], at: usize, map: u8, message: Message) -> usize
    requires { at + 4 ≤ length out.old }
    ensures { Puts at (head_bytes map message) out.old out.new result }
{
    out[at] = map;
    let kind_at = at + 1;
    out[kind_at] = kind_number(message.kind);
    let from_at = kind_at + WIDTHS.kind;
    out[from_at] = message.from;
    let to_at = from_at + WIDTHS.from;
    out[to_at] = message.to;
    to_at + WIDTHS.to
}

// Hour, origin, lamp and quantity, as far as the map has them.
fn put_body(out: &mut [u8], at: usize, map: u8, message: Message) -> usize
    requires { at + length (body_bytes map message) ≤ length out.old }
    ensures { Puts at (body_bytes map message) out.old out.new result }
{
    let kind = message.kind;
    let behind_hour = put_number(out, at, HOUR, WIDTHS.hour, map, message.hour);
    let behind_origin = put_number(
        out,
        behind_hour,
        ORIGIN,
        WIDTHS.origin,
        map,
        origin_of(kind),
    );
    let behind_lamp = put_lamp(out, behind_origin, map, message.lamp);
    put_number(
        out,
        behind_lamp,
        QUANTITY,
        WIDTHS.quantity,
        map,
        quantity_of(kind),
    )
}

// A field of that width that is a number, where its bit stands in the map.
fn put_number<T: Number>(
    out: &mut [u8],
    at: usize,
    bit: u8,
    width: usize,
    map: u8,
    number: T,
) -> usize
    requires { (0 < bit) × (width ≡ T.WIDTH) × (at + length (field_bytes map bit (bytes_of T.WIDTH (T.value number))) ≤ length out.old) }
    ensures { Puts at (field_bytes map bit (bytes_of T.WIDTH (T.value number))) out.old out.new result }
{
    if !stands(bit, map) {
        return at;
    }
    number.write(out, at);
    at + width
}

// The lamp, where it stands in the map.
fn put_lamp(out: &mut [u8], at: usize, map: u8, lamp: [u8; 18]) -> usize
    requires { at + length (field_bytes map 32 lamp) ≤ length out.old }
    ensures { Puts at (field_bytes map 32 lamp) out.old out.new result }
{
    if !stands(LAMP, map) {
        return at;
    }
    copy(out, at, &lamp);
    at + WIDTHS.lamp
}
