// Telling other gateways of the round: the header is written, and a frame for each of them is put out.
#![tactic(auto)]

pub mod receivers; // receivers.rt: whom a gateway hears and tells

ghost use Rattle.std.specs.Prelude.{◌≡◌, ◌≤◌, ◌<◌, length};
ghost use Rattle.buffer.specs.Slice.{write};
ghost use Rattle.model.specs.Messages.{kind_number};
ghost use Rattle.frame.specs.Layout.{whole_length};
ghost use Rattle.frame.specs.Kinds.{map_of_kind};
ghost use Rattle.routing.specs.AtMostTwo.{listed};
ghost use Rattle.gateway.specs.Effects.{bytes_of_frames, settling};
ghost use Rattle.gateway.specs.Rounds.{frame_in_round, frames_in_round};
ghost use Rattle.gateway.specs.Inside.Premises.{Changed, announced, Leaves};

use frame::tables::{LVT_LENGTH, START_LENGTH};
use frame::{Frame, Sense};
use header::write_header;
use memory::Header;
use model::{Kind, Message};
use refusal::Refusal;
use routing::at_most_two::AtMostTwo;
use writer::outgoing::{put_frame, put_two};

// Writes the header, and a frame of that kind and hour to each of these gateways; 5 where the output is too short.
pub fn announce(
    memory: &mut [u8],
    output: &mut [u8],
    header: Header,
    kind: Kind,
    hour: u32,
    to: AtMostTwo<u8>,
) -> Result<usize, Refusal>
    requires { Changed memory.old header × (3 < kind_number kind) }
    ensures { Leaves result memory output (settling (announced header kind hour (listed to))) }
{
    let settings = header.settings;
    let own = settings.own;
    let written = to.len() * length_in_round(kind);
    if output.len() < written {
        return Err(Refusal::NoRoom);
    }
    write_header(memory, header);
    put_each(output, kind, hour, own, to);
    Ok(written)
}

// How long a frame of that kind is: a Start, or else an Lvt or an Update.
fn length_in_round(kind: Kind) -> usize
    requires { 3 < kind_number kind }
    ensures { result ≡ whole_length (map_of_kind (kind_number kind)) }
{
    match kind {
        Kind::Start => START_LENGTH,
        _ => LVT_LENGTH,
    }
}

// Puts a frame to each of these gateways, one behind the other.
fn put_each(output: &mut [u8], kind: Kind, hour: u32, own: u8, to: AtMostTwo<u8>)
    requires { length (bytes_of_frames (frames_in_round kind hour own (listed to))) ≤ length output.old }
    ensures { output.new ≡ write 0 (bytes_of_frames (frames_in_round kind hour own (listed to))) output.old }
{
    match to {
        AtMostTwo::None => {}
        AtMostTwo::One(first) => {
            put_frame(output, 0, round_frame(kind, hour, own, first));
        }
        AtMostTwo::Two(first, second) => {
            put_two(
                output,
                0,
                round_frame(kind, hour, own, first),
                round_frame(kind, hour, own, second),
            );
        }
    }
}

fn round_frame(kind: Kind, hour: u32, from: u8, to: u8) -> Frame
    ensures { result ≡ frame_in_round kind hour from to }
{
    let lamp = [0; 18];
    let message = Message {
        hour,
        from,
        to,
        kind,
        lamp,
    };
    Frame {
        message,
        sense: Sense::Plain,
    }
}
