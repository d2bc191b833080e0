// A carrier between the two gateways of the last example that brings the oldest frame first.
#![tactic(auto)]

ghost use Rattle.std.specs.Prelude.{◌≤◌, length};

use arrayvec::ArrayVec;
use limits::addressed_to;
use lines::{Frames, Gateway, append, put};
use reader::read;
use take::take;

// Brings every frame of a line once, the oldest first, and answers the frames that are then under way.
pub fn bring_all<const M: usize, const R: usize, const N: usize>(
    gateways: &mut [Gateway<M, R>; 2],
    line: &ArrayVec<u8, N>,
) -> ArrayVec<u8, N> {
    let mut behind = ArrayVec::new();
    for frame in Frames(line) {
        bring(gateways, frame, &mut behind);
    }
    behind
}

// Brings a frame. What its gateway puts out goes to the end of the line; refused, the frame itself does.
fn bring<const M: usize, const R: usize, const N: usize>(
    gateways: &mut [Gateway<M, R>; 2],
    frame: &[u8],
    line: &mut ArrayVec<u8, N>,
)
    ensures { length line.old.items ≤ length line.new.items }
{
    let mut output = [0u8; 4096];
    let gateway = &mut gateways[receiver_of(frame)];
    match take(&mut gateway.memory, frame, &mut output) {
        Ok(written) => append(line, &output, written),
        Err(_) => put(line, frame),
    }
}

// The gateway that a frame is addressed to; the second for a number that no gateway has, the first for what is no frame.
fn receiver_of(bytes: &[u8]) -> usize
    ensures { result ≤ 1 }
{
    match read(bytes) {
        Ok(frame) => usize::from(addressed_to(frame.sense, frame.message)).min(1),
        Err(_) => 0,
    }
}
