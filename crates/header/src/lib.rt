// The memory's first bytes: settings, counts, state, agreed time and round, read into a value and written from it.
#![tactic(auto)]

ghost use Rattle.std.specs.Prelude.{◌≡◌, ◌≤◌, length};
ghost use Rattle.memory.specs.Layout.{header_used};
ghost use Rattle.memory.specs.Inside.Pieces.{header_written};
ghost use Rattle.memory.specs.Codec.{phase_of, header_at};

use buffer::{Number, write_all};
use decoding::state_of;
use encoding::write_state;
use memory::{
    Header, OUTSTANDING_COUNT_AT, Phase, QUEUED_AT, Round, STATE_AT, STATE_SIZE, Settings,
};
use model::LeadTimes;

pub fn read_header(memory: &[u8]) -> Header
    requires { header_used ≤ length memory.now }
    ensures { result ≡ header_at memory.now }
{
    Header {
        settings: read_settings(memory),
        state: state_of(&memory[STATE_AT..STATE_AT + STATE_SIZE]),
        agreed: u32::read(memory, 18),
        round: read_round(memory),
        queued: u16::read(memory, QUEUED_AT),
        outstanding: u16::read(memory, OUTSTANDING_COUNT_AT),
    }
}

pub fn read_settings(memory: &[u8]) -> Settings
    requires { header_used ≤ length memory.now }
    ensures { result ≡ (header_at memory.now).settings }
{
    let hours = LeadTimes {
        request: u32::read(memory, 26),
        delivery: u32::read(memory, 30),
        life: u32::read(memory, 34),
    };
    Settings {
        n: memory[0],
        own: memory[1],
        supplier: memory[2],
        last: u32::read(memory, 14),
        q: u16::read(memory, 6),
        u: u16::read(memory, 8),
        hours,
    }
}

fn read_round(memory: &[u8]) -> Round
    requires { header_used ≤ length memory.now }
    ensures { result ≡ (header_at memory.now).round }
{
    Round {
        phase: phase_of(memory[3]),
        arrived: memory[4],
        note: u32::read(memory, 22),
    }
}

// Any number past 1 is read as Stopped.
fn phase_of(number: u8) -> Phase
    ensures { result ≡ phase_of number }
{
    match number {
        0 => Phase::Idle,
        1 => Phase::Counting,
        _ => Phase::Stopped,
    }
}

// Puts a header; byte 5 and those from 54 on stay as they are.
pub fn write_header(memory: &mut [u8], header: Header)
    requires { header_used ≤ length memory.old }
    ensures { memory.new ≡ header_written header memory.old }
{
    let settings = header.settings;
    let hours = settings.hours;
    let round = header.round;
    let front = [
        settings.n,
        settings.own,
        settings.supplier,
        round.phase as u8,
        round.arrived,
    ];
    let counts = [settings.q, settings.u, header.queued, header.outstanding];
    let times = [
        settings.last,
        header.agreed,
        round.note,
        hours.request,
        hours.delivery,
        hours.life,
    ];
    write_all(memory, 0, &front);
    write_all(memory, 6, &counts);
    write_all(memory, 14, &times);
    write_state(memory, STATE_AT, header.state);
}
