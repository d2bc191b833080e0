// Taking an Lvt: the first one stops the note, each lowers the value, the last one finishes the gateway's part of the round.
#![tactic(auto)]

ghost use Rattle.std.specs.Prelude.{◌≡◌};
ghost use Rattle.memory.specs.Codec.{decode};
ghost use Rattle.gateway.specs.Effects.{settling};
ghost use Rattle.gateway.specs.Rounds.{one_lvt, take_lvt, value_in};
ghost use Rattle.gateway.specs.Calls.{unless_below};
ghost use Rattle.gateway.specs.Inside.Premises.{Known, Leaves};

use announce::announce;
use announce::receivers::{all_bits, bit_of, told};
use memory::{Header, Phase};
use model::{Kind, Message};
use phases::{awaited, changed, is_idle, stopped};
use places::least::least_queued;
use refusal::Refusal;
use round::steps::finish;
use routing::at_most_two::AtMostTwo;

// An Lvt below the agreed time is 9, before its turn is looked at.
pub fn take_timely_lvt(
    memory: &mut [u8],
    output: &mut [u8],
    header: Header,
    message: Message,
) -> Result<usize, Refusal>
    requires { Known memory.old header }
    ensures { Leaves result memory output (λ room g. unless_below message.hour g (take_lvt room message.from message.hour g)) }
{
    if message.hour < header.agreed {
        return Err(Refusal::BelowAgreedTime);
    }
    take_lvt(memory, output, header, message.from, message.hour)
}

// Taking an Lvt from gateway k: it lowers the value, which the first one fixes.
fn take_lvt(
    memory: &mut [u8],
    output: &mut [u8],
    header: Header,
    k: u8,
    hour: u32,
) -> Result<usize, Refusal>
    requires { Known memory.old header }
    ensures { Leaves result memory output (λ room g. take_lvt room k hour g) }
{
    let settings = header.settings;
    let round = header.round;
    let phase = round.phase;
    if is_idle(phase) {
        return Err(Refusal::OutOfTurn);
    }
    let among = told(settings.n, settings.own);
    let bit = bit_of(k, among);
    if !awaited(bit, round.arrived) {
        return Err(Refusal::OutOfTurn);
    }
    let value = value_in(memory, header).min(hour);
    lvt_in(
        memory,
        output,
        header,
        all_bits(among),
        round.arrived + bit,
        value,
    )
}

// One more Lvt is in; with all in the round is finished here.
fn lvt_in(
    memory: &mut [u8],
    output: &mut [u8],
    header: Header,
    all: u8,
    arrived: u8,
    value: u32,
) -> Result<usize, Refusal>
    requires { Known memory.old header }
    ensures { Leaves result memory output (settling (one_lvt all arrived value)) }
{
    if arrived == all {
        return finish(memory, output, header, value);
    }
    let next = changed(header, header.agreed, stopped(arrived, value));
    announce(memory, output, next, Kind::Lvt, 0, AtMostTwo::None)
}

// The value before an Lvt: the first one stops the note and takes the value then.
fn value_in(memory: &[u8], header: Header) -> u32
    requires { Known memory.now header }
    ensures { result ≡ value_in header.round.phase (decode memory.now) }
{
    let round = header.round;
    let phase = round.phase;
    match phase {
        Phase::Idle => 0,
        Phase::Counting => round.note.min(least_queued(memory, header.queued as usize)),
        Phase::Stopped => round.note,
    }
}
