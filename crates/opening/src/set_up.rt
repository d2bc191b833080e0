// Set up: the settings, then each frame of the opening list in turn, then the queue places; no store before all of these have passed.
ghost use Rattle.std.specs.Prelude.{◌≡◌, []};
ghost use Rattle.gateway.specs.Answers.{answer_of};
ghost use Rattle.gateway.specs.Calls.{left, set_up};

use crate::settings::{opened_header, opening_valid, settings_of};
use gateway::Opening;
use header::write_header;
use opening_list::{check_list, enter_list};
use refusal::Refusal;

pub fn set_up(memory: &mut [u8], opening: Opening, list: &[u8]) -> Result<usize, Refusal>
    ensures { left (answer_of result) memory.new [] ≡ set_up opening list.now memory.old }
{
    if !opening_valid(opening, memory.len()) {
        return Err(Refusal::OutOfRange);
    }
    let settings = settings_of(opening);
    let count = check_list(list, settings)?;
    if count > settings.q as usize {
        return Err(Refusal::NoRoom);
    }
    enter_list(memory, list);
    write_header(memory, opened_header(opening, settings, count));
    Ok(0)
}
