// Work: up to so many events are done, each the earliest unprocessed plain message. What they send stands in outstanding places, and its
// frames are put out from there at the end, by one writer.
#![tactic(auto)]

ghost use Rattle.std.specs.Prelude.{◌≡◌};
ghost use Rattle.gateway.specs.Answers.{worked_as};
ghost use Rattle.gateway.specs.Calls.{left, worked_off};
ghost use Rattle.gateway.specs.Inside.Premises.{Known};
ghost use Rattle.work.specs.Inside.Finishing.{MayFinish, Finishes};

use effects::send::{outstanding_at, put_stored};
use events::work_one;
use gateway::Worked;
use header::write_header;
use memory::Header;
use refusal::Refusal;
use replies::Turn;
use soundness::checked;

pub fn work(memory: &mut [u8], output: &mut [u8], budget: u32) -> Worked
    ensures { left (worked_as result) memory.new output.new ≡ worked_off budget memory.old output.old }
{
    match checked(memory) {
        Ok(header) => work_off(memory, output, budget, header),
        Err(unsound) => Worked {
            count: 0,
            stopped: Some(Refusal::from(unsound)),
            written: 0,
        },
    }
}

// Works off the events on sound memory. Each search for the next message begins behind the last event done.
fn work_off(memory: &mut [u8], output: &mut [u8], budget: u32, header: Header) -> Worked
    requires { Known memory.old header }
    ensures { left (worked_as result) memory.new output.new ≡ worked_off budget memory.old output.old }
{
    let room = output.len();
    let mut turn = Turn {
        header,
        written: 0,
        place: 0,
        why: None,
    };
    for count in 0..budget {
        turn = work_one(memory, room, turn);
        if turn.why.is_some() {
            return finish(memory, output, header, turn, count);
        }
    }
    finish(memory, output, header, turn, budget)
}

// Puts the frames of what was sent out, from the first place that was free, writes the header, and answers.
fn finish(memory: &mut [u8], output: &mut [u8], first: Header, turn: Turn, count: u32) -> Worked
    requires { MayFinish memory.old output.old first turn.header }
    ensures { Finishes memory.old output.old memory.new output.new first turn count result }
{
    let header = turn.header;
    let sent = header.outstanding - first.outstanding;
    let written = put_stored(memory, output, outstanding_at(first), sent as usize);
    write_header(memory, header);
    Worked {
        count,
        stopped: turn.why,
        written,
    }
}
