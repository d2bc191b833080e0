// Reading the agreed time.
ghost use Rattle.std.specs.Prelude.{◌≡◌};
ghost use Rattle.gateway.specs.Answers.{time_of};
ghost use Rattle.gateway.specs.Calls.{agreed_time};

use refusal::Refusal;
use soundness::checked;

pub fn agreed_time(memory: &[u8]) -> Result<u32, Refusal>
    ensures { time_of result ≡ agreed_time memory.now }
{
    let header = checked(memory)?;
    Ok(header.agreed)
}
