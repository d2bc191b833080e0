// The steps of a round at a gateway: it begins, and it finishes.
ghost use Rattle.gateway.specs.Effects.{settling};
ghost use Rattle.gateway.specs.Rounds.{finished, begun, start};
ghost use Rattle.gateway.specs.Inside.Premises.{Known, Leaves};

use announce::announce;
use announce::receivers::{children, heard, told};
use memory::Header;
use model::Kind;
use phases::{changed, counting, is_idle, no_round};
use places::least::{least_outstanding, least_queued};
use refusal::Refusal;

// With all Lvts in: gateway 0 closes the round and sends Updates, another sends its Lvt along from.
pub fn finish(
    memory: &mut [u8],
    output: &mut [u8],
    header: Header,
    value: u32,
) -> Result<usize, Refusal>
    requires { Known memory.old header }
    ensures { Leaves result memory output (settling (finished value)) }
{
    let settings = header.settings;
    if settings.own == 0 {
        let next = changed(header, value, no_round());
        return announce(
            memory,
            output,
            next,
            Kind::Update,
            value,
            children(settings.n, settings.own),
        );
    }
    let next = changed(header, header.agreed, no_round());
    announce(
        memory,
        output,
        next,
        Kind::Lvt,
        value,
        heard(settings.n, settings.own),
    )
}

// With all Starts in: gateway N - 1 stops as it starts, another sends Start along to.
pub fn begin(memory: &mut [u8], output: &mut [u8], header: Header) -> Result<usize, Refusal>
    requires { Known memory.old header }
    ensures { Leaves result memory output (settling begun) }
{
    let settings = header.settings;
    let note = least_outstanding(memory, settings.q as usize, header.outstanding as usize);
    if settings.own + 1 == settings.n {
        let value = note.min(least_queued(memory, header.queued as usize));
        return finish(memory, output, header, value);
    }
    let next = changed(header, header.agreed, counting(note));
    announce(
        memory,
        output,
        next,
        Kind::Start,
        0,
        told(settings.n, settings.own),
    )
}

// The start call.
pub fn start_round(memory: &mut [u8], output: &mut [u8], header: Header) -> Result<usize, Refusal>
    requires { Known memory.old header }
    ensures { Leaves result memory output start }
{
    let settings = header.settings;
    let round = header.round;
    let phase = round.phase;
    if settings.own != 0 {
        return Err(Refusal::OutOfTurn);
    }
    if !is_idle(phase) {
        return Err(Refusal::OutOfTurn);
    }
    begin(memory, output, header)
}
