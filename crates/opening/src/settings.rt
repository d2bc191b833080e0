// The settings that set up is told: whether they are in their ranges, as the header stores them, and the header just set up.
ghost use Rattle.std.specs.Prelude.{◌≡◌, true, ◌≤◌};
ghost use Rattle.memory.specs.Validity.{settings_valid};
ghost use Rattle.gateway.specs.SettingUp.{settings_of, opening_valid};
ghost use Rattle.opening_list.specs.Inside.Frames.{opened_header};

use gateway::Opening;
use memory::{HEADER_SIZE, Header, OUTSTANDING_SIZE, Phase, QUEUE_SIZE, Round, Settings};
use model::{State, lead_times_valid};

// Whether every setting is in its range, and the memory has so many bytes as it has to.
#[tactic(auto, unfolding(gateway::specs::SettingUp::opening_valid))]
pub fn opening_valid(opening: Opening, size: usize) -> bool
    ensures { result ≡ opening_valid opening size }
{
    in_range(opening)
        && opening.stock <= 65535
        && HEADER_SIZE + QUEUE_SIZE * (opening.q as usize) + OUTSTANDING_SIZE * (opening.u as usize)
            <= size
}

// N 1 to 255, own number and supplier below N, H below nothing due, Q and U 1 to 512, lead times in their range.
#[tactic(auto, unfolding(memory::specs::Validity::settings_valid))]
fn in_range(opening: Opening) -> bool
    ensures { result ≡ settings_valid (settings_of opening) }
{
    opening.n >= 1
        && opening.n <= 255
        && opening.own < opening.n
        && opening.supplier < opening.n
        && opening.last < 4294967295
        && opening.q >= 1
        && opening.q <= 512
        && opening.u >= 1
        && opening.u <= 512
        && lead_times_valid(opening.hours)
}

// The settings in the widths of their fields.
pub fn settings_of(opening: Opening) -> Settings
    requires { settings_valid (settings_of opening) ≡ true }
    ensures { result ≡ settings_of opening }
{
    Settings {
        n: opening.n as u8,
        own: opening.own as u8,
        supplier: opening.supplier as u8,
        last: opening.last,
        q: opening.q as u16,
        u: opening.u as u16,
        hours: opening.hours,
    }
}

// The header of a gateway just set up, with so many messages in its queue.
pub fn opened_header(opening: Opening, settings: Settings, count: usize) -> Header
    requires { (settings ≡ settings_of opening) × (count ≤ 65535) }
    ensures { result ≡ opened_header opening count }
{
    Header {
        settings,
        state: State {
            stock: opening.stock,
            ..State::default()
        },
        agreed: 0,
        round: Round {
            phase: Phase::Idle,
            arrived: 0,
            note: 0,
        },
        queued: count as u16,
        outstanding: 0,
    }
}
