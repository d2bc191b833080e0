// Sending messages and cancels: each takes an outstanding place and lowers the note, and their frames are put out from there.
ghost use Rattle.std.specs.Prelude.{◌≡◌, ◌∷◌, suc, ◌+◌, ◌*◌, ◌≤◌, ◌<◌, length};
ghost use Rattle.buffer.specs.Slice.{part, Puts};
ghost use Rattle.memory.specs.Layout.{outstanding_at, outstanding_size};
ghost use Rattle.memory.specs.Codec.{sent_of};
ghost use Rattle.gateway.specs.Effects.{noted, bytes_of_frames};
ghost use Rattle.effects.specs.Inside.Sending.{header_sent, frame_of, stored_frames, advanced_by};

use decoding::read_sent;
use entries::frame_if;
use frame::Frame;
use memory::{HEADER_SIZE, Header, OUTSTANDING_SIZE, Phase, QUEUE_SIZE, Round};
use writer::outgoing::Writer;

// Where the next outstanding place begins.
pub fn outstanding_at(header: Header) -> usize
    ensures { result ≡ outstanding_at header.settings.q header.outstanding }
{
    HEADER_SIZE
        + QUEUE_SIZE * (header.settings.q as usize)
        + OUTSTANDING_SIZE * (header.outstanding as usize)
}

// Puts the frames of what count outstanding places hold, from position place of the memory on; gives the position behind the last.
pub fn put_stored(memory: &[u8], output: &mut [u8], place: usize, count: usize) -> usize
    requires { (place + outstanding_size * count ≤ length memory.now)
        × (length (bytes_of_frames (stored_frames memory.now place count)) ≤ length output.old) }
    ensures { Puts 0 (bytes_of_frames (stored_frames memory.now place count)) output.old output.new result }
{
    let mut writer = Writer { output, at: 0 };
    put_places(&mut writer, memory, place, count);
    writer.at
}

// Puts a frame, and behind it the frames of what count outstanding places hold, from position place of the memory on; gives the
// position behind the last. One writer holds the output over all of them.
pub fn put_frames(
    memory: &[u8],
    output: &mut [u8],
    first: Frame,
    place: usize,
    count: usize,
) -> usize
    requires { (place + outstanding_size * count ≤ length memory.now)
        × (length (bytes_of_frames (first ∷ stored_frames memory.now place count)) ≤ length output.old) }
    ensures { Puts 0 (bytes_of_frames (first ∷ stored_frames memory.now place count)) output.old output.new result }
{
    let mut writer = Writer { output, at: 0 };
    writer.put_next(first);
    put_places(&mut writer, memory, place, count);
    writer.at
}

// Puts the frames of what count outstanding places hold, from position place of the memory on, behind those before.
fn put_places(writer: &mut Writer<'_>, memory: &[u8], place: usize, count: usize)
    requires { (place + outstanding_size * count ≤ length memory.now)
        × (writer.old.at + length (bytes_of_frames (stored_frames memory.now place count)) ≤ length writer.old.output.now) }
    ensures { writer.new ≡ advanced_by (bytes_of_frames (stored_frames memory.now place count)) writer.old }
{
    for k in 0..count {
        writer.put_next(stored_frame(memory, place, k));
    }
}

// The frame of what the outstanding place holds that is k places behind the one at position place.
fn stored_frame(memory: &[u8], place: usize, k: usize) -> Frame
    requires { place + outstanding_size * suc k ≤ length memory.now }
    ensures { result ≡ frame_of (sent_of (part memory.now (place + outstanding_size * k) outstanding_size)) }
{
    let sent = read_sent(memory, place + OUTSTANDING_SIZE * k);
    frame_if(sent.cancel, sent.message)
}

// The header after a message or a cancel of that hour is sent.
pub fn header_sent(header: Header, hour: u32) -> Header
    requires { header.outstanding < 65535 }
    ensures { result ≡ header_sent hour header }
{
    Header {
        round: note(header.round, hour),
        outstanding: header.outstanding + 1,
        ..header
    }
}

// The round after a message or a cancel of that hour is sent.
fn note(round: Round, hour: u32) -> Round
    ensures { result ≡ noted hour round }
{
    match round.phase {
        Phase::Counting => Round {
            note: round.note.min(hour),
            ..round
        },
        Phase::Idle | Phase::Stopped => round,
    }
}
