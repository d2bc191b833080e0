// Frames put one behind the other into the output: a writer holds the output and the position behind those put so far.
ghost use Rattle.std.specs.Prelude.{◌≡◌, ◌++◌, ◌+◌, ◌≤◌, length};
ghost use Rattle.buffer.specs.Slice.{Puts};
ghost use Rattle.frame.specs.Writing.{written};
ghost use Rattle.writer.specs.Inside.Outgoing.{advanced};

use crate::put;
use frame::Frame;

// The output that is lent, and the position of the next frame.
#[derive(Drop)]
pub struct Writer<'a> {
    pub output: &'a mut [u8],
    pub at: usize,
}

impl<'a> Writer<'a> {
    // Puts a frame behind those before.
    pub fn put_next(&mut self, frame: Frame)
        requires { self.old.at + length (written frame) ≤ length self.old.output.now }
        ensures { self.new ≡ advanced self.old frame }
    {
        self.at = put(self.output, self.at, frame);
    }
}

// Puts a frame into the output from position at on, and gives the position behind it.
pub fn put_frame(output: &mut [u8], at: usize, frame: Frame) -> usize
    requires { at + length (written frame) ≤ length output.old }
    ensures { Puts at (written frame) output.old output.new result }
{
    let mut writer = Writer { output, at };
    writer.put_next(frame);
    writer.at
}

// Puts two frames one behind the other from position at on, and gives the position behind the second.
pub fn put_two(output: &mut [u8], at: usize, first: Frame, second: Frame) -> usize
    requires { at + length (written first ++ written second) ≤ length output.old }
    ensures { Puts at (written first ++ written second) output.old output.new result }
{
    let mut writer = Writer { output, at };
    writer.put_next(first);
    writer.put_next(second);
    writer.at
}
