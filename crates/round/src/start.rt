// The start call.
ghost use Rattle.std.specs.Prelude.{◌≡◌};
ghost use Rattle.gateway.specs.Answers.{answer_of};
ghost use Rattle.gateway.specs.Calls.{left, started};

use crate::steps::start_round;
use refusal::Refusal;
use soundness::checked;

pub fn start(memory: &mut [u8], output: &mut [u8]) -> Result<usize, Refusal>
    ensures { left (answer_of result) memory.new output.new ≡ started memory.old output.old }
{
    let header = checked(memory)?;
    start_round(memory, output, header)
}
