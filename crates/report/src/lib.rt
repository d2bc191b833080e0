// A frame as a line of text, for those who run the gateways: its fields, or the number with which it is refused and why.
#![tactic(auto)]

ghost use Rattle.std.specs.Prelude.{◌≡◌, true, false, is_ok, ◌++◌, ◌+◌, ◌≤◌, length};
ghost use Rattle.buffer.specs.Slice.{Puts};
ghost use Rattle.frame.specs.Writing.{writing};
ghost use Rattle.frame.specs.Reasons.{reading, frame_read};
ghost use Rattle.report.specs.Inside.Again.{written_as};
ghost use Rattle.report.specs.Line.{route, content, lamp_text, line};

use buffer::copy;
use check::same;
use frame::Frame;
use frame::tables::sense_number;
use lamp::lamp;
use model::{Message, kind_number, origin_of, quantity_of};
use reader::read;
use reasons::put_refused;
use text::put_field;
use writer::write;

// Whether a frame, read and written again, has other bytes than it had: never, since frames and values are one to one. The
// program frames asks it all the same, so that the writer too runs on every frame that is read.
pub fn differs(item: &[u8]) -> bool
    ensures { result ≡ false }
{
    match read(item) {
        Ok(frame) => {
            let mut again = [0u8; 28];
            !written_as(frame, item, &mut again)
        }
        Err(_) => false,
    }
}

// Whether a frame is written as that byte string, in a buffer lent for it.
fn written_as(frame: Frame, item: &[u8], again: &mut [u8]) -> bool
    ensures { (result ≡ written_as frame item.now (length again.old))
        × (again.new ≡ (writing frame again.old).output) }
{
    match write(again, frame) {
        Ok(count) => same(item, &again[..count]),
        Err(_) => false,
    }
}

// Puts the line of a byte string, without a line end, and answers the position behind it.
pub fn put_line(out: &mut [u8], at: usize, item: &[u8]) -> usize
    requires { at + 100 ≤ length out.old }
    ensures { (Puts at (line item.now) out.old out.new result) × (result ≤ at + 100) }
{
    match read(item) {
        Ok(frame) => {
            let behind_fields = put_fields(out, at, frame);
            put_lamp(out, behind_fields, item)
        }
        Err(reason) => put_refused(out, at, Some(reason)),
    }
}

// All fields but the lamp.
fn put_fields(out: &mut [u8], at: usize, frame: Frame) -> usize
    requires { at + 77 ≤ length out.old }
    ensures { (Puts at (route frame.message ++ content frame) out.old out.new result) × (result ≤ at + 77) }
{
    let behind_route = put_route(out, at, frame.message);
    put_content(out, behind_route, frame)
}

// Kind, from, to and hour.
fn put_route(out: &mut [u8], at: usize, message: Message) -> usize
    requires { at + 44 ≤ length out.old }
    ensures { (Puts at (route message) out.old out.new result) × (result ≤ at + 44) }
{
    let behind_kind = put_field(out, at, kind_number(message.kind) as u32);
    let behind_from = put_field(out, behind_kind, message.from as u32);
    let behind_to = put_field(out, behind_from, message.to as u32);
    put_field(out, behind_to, message.hour)
}

// Origin, quantity and sense.
fn put_content(out: &mut [u8], at: usize, frame: Frame) -> usize
    requires { at + 33 ≤ length out.old }
    ensures { (Puts at (content frame) out.old out.new result) × (result ≤ at + 33) }
{
    let kind = frame.message.kind;
    let behind_origin = put_field(out, at, origin_of(kind) as u32);
    let behind_quantity = put_field(out, behind_origin, quantity_of(kind) as u32);
    put_field(out, behind_quantity, sense_number(frame.sense) as u32)
}

// The lamp of a frame, from the part of it that holds the lamp, or a dash where it has none.
fn put_lamp(out: &mut [u8], at: usize, item: &[u8]) -> usize
    requires { (at + 18 ≤ length out.old) × (is_ok (reading item.now) ≡ true) }
    ensures { (Puts at (lamp_text (frame_read item.now).message) out.old out.new result)
        × (result ≤ at + 18) }
{
    let part = lamp(item);
    if part.len() == 0 {
        out[at] = b'-';
        return at + 1;
    }
    copy(out, at, part);
    at + part.len()
}
