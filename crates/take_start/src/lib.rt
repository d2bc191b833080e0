// Taking a Start: with all Starts in, the round begins at this gateway.
#![tactic(auto)]

ghost use Rattle.gateway.specs.Effects.{settling};
ghost use Rattle.gateway.specs.Rounds.{one_start, take_start};
ghost use Rattle.gateway.specs.Inside.Premises.{Known, Leaves};

use announce::announce;
use announce::receivers::{all_bits, bit_of, heard};
use memory::Header;
use model::Kind;
use phases::{awaited, changed, is_idle, waiting};
use refusal::Refusal;
use round::steps::begin;
use routing::at_most_two::AtMostTwo;

// Taking a Start from gateway k.
pub fn take_start(
    memory: &mut [u8],
    output: &mut [u8],
    header: Header,
    k: u8,
) -> Result<usize, Refusal>
    requires { Known memory.old header }
    ensures { Leaves result memory output (λ room g. take_start room k g) }
{
    let settings = header.settings;
    let round = header.round;
    let phase = round.phase;
    if !is_idle(phase) {
        return Err(Refusal::OutOfTurn);
    }
    let among = heard(settings.n, settings.own);
    let bit = bit_of(k, among);
    if !awaited(bit, round.arrived) {
        return Err(Refusal::OutOfTurn);
    }
    start_in(memory, output, header, all_bits(among), round.arrived + bit)
}

// One more Start is in; with all in the round begins here.
fn start_in(
    memory: &mut [u8],
    output: &mut [u8],
    header: Header,
    all: u8,
    arrived: u8,
) -> Result<usize, Refusal>
    requires { Known memory.old header }
    ensures { Leaves result memory output (settling (one_start all arrived)) }
{
    if arrived == all {
        return begin(memory, output, header);
    }
    let round = header.round;
    let next = changed(header, header.agreed, waiting(arrived, round.note));
    announce(memory, output, next, Kind::Start, 0, AtMostTwo::None)
}
