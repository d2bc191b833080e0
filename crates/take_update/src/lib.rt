// Taking an Update: the larger agreed time is kept, and the children are told.
#![tactic(auto)]

ghost use Rattle.std.specs.Prelude.{◌≡◌};
ghost use Rattle.gateway.specs.Rounds.{take_update};
ghost use Rattle.gateway.specs.Inside.Premises.{Known, Leaves};

use announce::announce;
use announce::receivers::children;
use memory::Header;
use model::Kind;
use phases::changed;
use refusal::Refusal;

// Taking an Update from gateway k: the larger time is kept.
pub fn take_update(
    memory: &mut [u8],
    output: &mut [u8],
    header: Header,
    k: u8,
    hour: u32,
) -> Result<usize, Refusal>
    requires { Known memory.old header }
    ensures { Leaves result memory output (λ room g. take_update room k hour g) }
{
    let settings = header.settings;
    if settings.own == 0 || k != (settings.own - 1) / 2 {
        return Err(Refusal::OutOfTurn);
    }
    let next = changed(header, header.agreed.max(hour), header.round);
    announce(
        memory,
        output,
        next,
        Kind::Update,
        hour,
        children(settings.n, settings.own),
    )
}
