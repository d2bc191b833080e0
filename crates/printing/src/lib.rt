// The records of the last example, printed: a line an event.
#![tactic(auto)]

ghost use Rattle.std.specs.Prelude.{length};
ghost use Rattle.std.specs.Iterator.{at_most};

use decoding::state_of;
use lines::split_frame;
use memory::STATE_SIZE;
use model::State;
use std::io;

// The events of a record: the frame of each, and the state after it.
#[derive(Drop)]
struct Events<'a>(&'a [u8]);

impl<'a> Iterator for Events<'a> {
    type Item = (&'a [u8], State);

    ghost remaining = { λ s. at_most (length s.0.now) };

    fn next(&mut self) -> Option<(&'a [u8], State)> {
        if self.0.is_empty() {
            return None;
        }
        let (frame, behind) = split_frame(self.0);
        let (state, others) = behind.split_at_checked(STATE_SIZE)?;
        self.0 = others;
        Some((frame, state_of(state)))
    }
}

// Prints a line for each event of a gateway's record.
pub fn print_record(rt: &impl Print, own: usize, events: &[u8]) -> io::Result<()> {
    for (frame, state) in Events(events) {
        print!(rt; "{own}")?;
        print_frame(rt, frame)?;
        print_state(rt, state)?;
    }
    Ok(())
}

// Prints a blank and the line of a frame.
fn print_frame(rt: &impl Print, frame: &[u8]) -> io::Result<()> {
    let mut text = [b' '; 128];
    let end = report::put_line(&mut text, 1, frame);
    rt.write_all(&text[..end])
}

// Prints a blank and each number of a state, and ends the line.
fn print_state(rt: &impl Print, state: State) -> io::Result<()> {
    let State {
        stock,
        failed,
        fitted,
        short,
    } = state;
    println!(rt; " {stock} {failed} {fitted} {short}")
}
