// The two gateways of the last example, and frames one behind the other in fixed memory: what a buffer has no room for is left out, and
// the program's buffers have room for all.
#![tactic(auto)]

ghost use Rattle.std.specs.Prelude.{◌≡◌, [], ◌<◌, length, take, drop, replicate};
ghost use Rattle.std.specs.Iterator.{at_most};
ghost use Rattle.gateway.specs.Examples.{town_hours};
ghost use Rattle.lines.specs.Inside.Frames.{first_size, plain_frame};
ghost use Rattle.lines.specs.Inside.Putting.{put, appended};

use arrayvec::ArrayVec;
use entries::frame_if;
use frame::tables::whole_length;
use model::{LeadTimes, Message};
use writer::write;

// A gateway: its memory, and the record of the events that it has committed.
#[derive(Drop)]
pub struct Gateway<const M: usize, const R: usize> {
    pub memory: [u8; M],
    pub events: ArrayVec<u8, R>,
}

impl<const M: usize, const R: usize> Gateway<M, R> {
    // A gateway before it is set up. A memory with 512 places of each kind has 49,408 bytes.
    pub fn new() -> Gateway<M, R>
        ensures memory { result.memory ≡ replicate M 0 }
        ensures events { result.events.items ≡ [] }
    {
        Gateway {
            memory: [0; M],
            events: ArrayVec::new(),
        }
    }
}

// Request, delivery and life hours of both gateways.
pub fn town_hours() -> LeadTimes
    ensures { result ≡ town_hours }
{
    LeadTimes {
        request: 1,
        delivery: 24,
        life: 43800,
    }
}

// The first of some frames, and what stands behind it.
pub fn split_frame(frames: &[u8]) -> (&[u8], &[u8])
    requires { 0 < length frames.now }
    ensures frame { result.0.now ≡ take (first_size frames.now) frames.now }
    ensures behind { result.1.now ≡ drop (first_size frames.now) frames.now }
    ensures shorter { length result.1.now < length frames.now }
{
    let size = whole_length(frames[0]);
    frames.split_at(size.min(frames.len()))
}

// Frames that stand one behind the other, from the first on.
#[derive(Drop)]
pub struct Frames<'a>(pub &'a [u8]);

impl<'a> Iterator for Frames<'a> {
    type Item = &'a [u8];

    ghost remaining = { λ s. at_most (length s.0.now) };

    fn next(&mut self) -> Option<&'a [u8]> {
        if self.0.is_empty() {
            return None;
        }
        let (frame, behind) = split_frame(self.0);
        self.0 = behind;
        Some(frame)
    }
}

// Puts bytes behind those of a buffer. Where there is no room for them it stays as it is.
pub fn put<const N: usize>(buffer: &mut ArrayVec<u8, N>, bytes: &[u8])
    ensures { buffer.new.items ≡ put N buffer.old.items bytes.now }
{
    let _ = buffer.try_extend_from_slice(bytes);
}

// Puts the first so many bytes of an output behind those of a buffer. Where the output has fewer the buffer stays as it is.
pub fn append<const N: usize>(buffer: &mut ArrayVec<u8, N>, output: &[u8], count: usize)
    ensures { buffer.new.items ≡ appended N buffer.old.items output.now count }
{
    if count <= output.len() {
        put(buffer, &output[..count]);
    }
}

// Puts a plain message's frame behind the bytes of a buffer. A message that is no frame is left out.
pub fn push_plain<const N: usize>(buffer: &mut ArrayVec<u8, N>, message: Message)
    ensures { buffer.new.items ≡ put N buffer.old.items (plain_frame message) }
{
    let mut frame = [0u8; 28];
    if let Ok(count) = write(&mut frame, frame_if(false, message)) {
        put(buffer, &frame[..count]);
    }
}
