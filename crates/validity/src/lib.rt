// What a gateway keeps to: settings, round and stored messages. Each test is one of the definitions of validity.
// The tests return one by one: as one expression each, together with those of soundness, they take 1.4 of the time.
#![tactic(auto)]

ghost use Rattle.std.specs.Prelude.{◌≡◌, ◌<◌};
ghost use Rattle.memory.specs.Layout.{size_for};
ghost use Rattle.memory.specs.Validity.{settings_valid, one_of_two, arrivals_possible, round_possible};
ghost use Rattle.memory.specs.Validity.{storable, is_no_state, entry_valid, sent_valid};

use entries::{frame_if, is_processed, is_waiting};
use frame::tables::has_lamp;
use limits::numbers_below;
use memory::{Entry, HEADER_SIZE, OUTSTANDING_SIZE, Phase, QUEUE_SIZE, Round, Sent, Settings};
use model::{Message, State, kind_number, lead_times_valid};
use neighbours::middles::Middles;
use rules::well_formed;

// How long the memory has to be for its settings.
pub fn size_for(settings: Settings) -> usize
    ensures { result ≡ size_for settings.q settings.u }
{
    HEADER_SIZE + QUEUE_SIZE * (settings.q as usize) + OUTSTANDING_SIZE * (settings.u as usize)
}

// N 1 to 255, own number and supplier below N, H below nothing due, Q and U 1 to 512, lead times in their range. N has one byte.
pub fn settings_valid(settings: Settings) -> bool
    ensures { result ≡ settings_valid settings }
{
    if settings.n < 1 {
        return false;
    }
    if settings.own >= settings.n {
        return false;
    }
    if settings.supplier >= settings.n {
        return false;
    }
    if settings.last >= 4294967295 {
        return false;
    }
    if settings.q < 1 {
        return false;
    }
    if settings.q > 512 {
        return false;
    }
    if settings.u < 1 {
        return false;
    }
    if settings.u > 512 {
        return false;
    }
    let hours = settings.hours;
    lead_times_valid(hours)
}

// Whether the arrivals can be those of the phase, by the number of arcs from and to.
pub fn round_possible(settings: Settings, round: Round) -> bool
    requires { settings.own < settings.n }
    ensures { result ≡ round_possible settings round }
{
    let middles = Middles::new(settings.n as u32);
    let own = settings.own as u32;
    arrivals_possible(
        round.arrived,
        middles.from_of(own).len(),
        middles.to_of(own).len(),
        round.phase,
    )
}

fn arrivals_possible(arrived: u8, froms: usize, tos: usize, phase: Phase) -> bool
    ensures { result ≡ arrivals_possible arrived froms tos phase }
{
    match phase {
        Phase::Idle => {
            if arrived == 0 {
                return true;
            }
            if froms != 2 {
                return false;
            }
            one_of_two(arrived)
        }
        Phase::Counting => {
            if arrived != 0 {
                return false;
            }
            1 <= tos
        }
        Phase::Stopped => {
            if tos != 2 {
                return false;
            }
            one_of_two(arrived)
        }
    }
}

// Whether the bits of two arrivals are some and not all.
fn one_of_two(arrived: u8) -> bool
    ensures { result ≡ one_of_two arrived }
{
    if arrived < 1 {
        return false;
    }
    arrived <= 2
}

// Whether a message is of a form, numbers and hour that a place can hold.
pub fn storable(settings: Settings, cancel: bool, message: Message) -> bool
    ensures { result ≡ storable settings cancel message }
{
    let kind = message.kind;
    if kind_number(kind) > 3 {
        return false;
    }
    if !well_formed(frame_if(cancel, message)) {
        return false;
    }
    if !numbers_below(settings.n as u16, message) {
        return false;
    }
    message.hour <= settings.last
}

// Whether a queued message can be stored, is addressed here, and has a state saved only if it is processed.
pub fn entry_valid(settings: Settings, entry: Entry) -> bool
    ensures { result ≡ entry_valid settings entry }
{
    let message = entry.message;
    let mark = entry.mark;
    let before = entry.before;
    if !storable(settings, is_waiting(mark), message) {
        return false;
    }
    if message.to != settings.own {
        return false;
    }
    if is_processed(mark) {
        return true;
    }
    is_no_state(before)
}

fn is_no_state(state: State) -> bool
    ensures { result ≡ is_no_state state }
{
    if state.stock != 0 {
        return false;
    }
    if state.failed != 0 {
        return false;
    }
    if state.fitted != 0 {
        return false;
    }
    state.short == 0
}

// Whether an outstanding message can be stored, is no Restock and was sent from here.
pub fn sent_valid(settings: Settings, sent: Sent) -> bool
    ensures { result ≡ sent_valid settings sent }
{
    let message = sent.message;
    let kind = message.kind;
    if !storable(settings, sent.cancel, message) {
        return false;
    }
    if !has_lamp(kind_number(kind)) {
        return false;
    }
    message.from == settings.own
}
