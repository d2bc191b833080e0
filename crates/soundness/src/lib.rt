// Whether lent memory is sound: its header, then one pass over the used queue places and one over the used outstanding places.
// The tests return one by one, and the loops carry their position on: as one expression each, with `for k in 0..count`, the test of a place
// takes 1.4 of the time.
#![tactic(auto)]

ghost use Rattle.std.specs.Prelude.{◌≡◌, ◌+◌, ◌*◌, ◌≤◌, length, cond};
ghost use Rattle.memory.specs.Layout.{header_size, queue_size, outstanding_size, queue_at};
ghost use Rattle.memory.specs.Codec.{header_at};
ghost use Rattle.memory.specs.Validity.{brings};
ghost use Rattle.memory.specs.Soundness.{sound};
ghost use Rattle.memory.specs.Inside.Checking.{blank_header, checked_as};
ghost use Rattle.soundness.specs.Inside.Passes.{header_sound, most_brought, passed_on, higher_with, stocks_fit, entry_accepted, queue_sound, outstanding_sound};

use decoding::{entry_of, sent_of};
use entries::{is_pending, is_processed};
use exactness::{entry_exact, sent_exact};
use following::{follows, pending_seen, processed_behind};
use header::read_header;
use memory::{
    Entry, HEADER_SIZE, Header, OUTSTANDING_SIZE, Phase, QUEUE_SIZE, Round, Settings, Unsound,
};
use model::{LeadTimes, State, quantity_of};
use validity::{entry_valid, round_possible, sent_valid, settings_valid, size_for};

// What a stock and the Restocks still to be done from it may come to, what 512 Restocks bring at most, and both together.
const MOST_STOCK: u32 = 33619455;

const MOST_BROUGHT: u32 = 33553920;

const MOST_TOGETHER: u64 = 67173375;

// What the pass over the queue carries from place to place: whether an unprocessed plain message was passed; what the Restocks passed
// bring, all of them and those that are pending; and of the stocks saved the highest, each more by what 512 Restocks bring at most and
// less by what the Restocks before it bring.
#[derive(Clone, Copy)]
pub struct Passed {
    pub pending: bool,
    pub brought: u32,
    pub still: u32,
    pub highest: u64,
}

// The header of lent memory that is sound. Other memory is refused by every call.
pub fn checked(memory: &[u8]) -> Result<Header, Unsound>
    ensures { result ≡ checked_as memory.now }
{
    if memory.len() < HEADER_SIZE {
        return Err(Unsound {
            header: no_header(),
        });
    }
    let header = read_header(memory);
    if !all_sound(memory, header) {
        return Err(Unsound { header });
    }
    Ok(header)
}

// A header of zeros, for memory that is too short for one.
fn no_header() -> Header
    ensures { result ≡ blank_header }
{
    Header {
        settings: Settings {
            n: 0,
            own: 0,
            supplier: 0,
            last: 0,
            q: 0,
            u: 0,
            hours: LeadTimes {
                request: 0,
                delivery: 0,
                life: 0,
            },
        },
        state: State::default(),
        agreed: 0,
        round: Round {
            phase: Phase::Idle,
            arrived: 0,
            note: 0,
        },
        queued: 0,
        outstanding: 0,
    }
}

// Whether memory that is long enough for a header is sound.
fn all_sound(memory: &[u8], header: Header) -> bool
    requires { (header_size ≤ length memory.now) × (header ≡ header_at memory.now) }
    ensures { result ≡ sound memory.now }
{
    let settings = header.settings;
    let round = header.round;
    if !header_sound(memory, header) {
        return false;
    }
    if !round_possible(settings, round) {
        return false;
    }
    let state = header.state;
    if !queue_sound(memory, settings, state.stock, header.queued as usize) {
        return false;
    }
    let at = HEADER_SIZE + QUEUE_SIZE * (settings.q as usize);
    outstanding_sound(memory, settings, at, header.outstanding as usize)
}

// Whether settings, the memory's length for them, phase and counts are possible.
fn header_sound(memory: &[u8], header: Header) -> bool
    requires { (header_size ≤ length memory.now) × (header ≡ header_at memory.now) }
    ensures { result ≡ header_sound memory.now }
{
    let settings = header.settings;
    if !settings_valid(settings) {
        return false;
    }
    if memory.len() < size_for(settings) {
        return false;
    }
    if memory[3] > 2 {
        return false;
    }
    if header.queued > settings.q {
        return false;
    }
    header.outstanding <= settings.u
}

// One pass: each place in its one form, and its entry valid and rightly placed behind the one before it. The first entry has
// none before it and is compared with itself. What every stock comes to with the Restocks still to be done from it is known at the end.
fn queue_sound(memory: &[u8], settings: Settings, stock: u32, count: usize) -> bool
    requires { (header_size + queue_size ≤ length memory.now) × (queue_at count ≤ length memory.now) × (count ≤ 512) }
    ensures { result ≡ queue_sound settings stock memory.now count }
{
    let mut before = entry_of(&memory[256..320]);
    let mut passed = Passed {
        pending: false,
        brought: 0,
        still: 0,
        highest: 0,
    };
    let mut at = HEADER_SIZE;
    let mut left = count;
    while left > 0 {
        let end = at + QUEUE_SIZE;
        let place = &memory[at..end];
        let entry = entry_of(place);
        if !entry_exact(place, entry) {
            return false;
        }
        if !entry_fits(settings, before, passed, entry) {
            return false;
        }
        passed = pass(passed, entry);
        before = entry;
        at += QUEUE_SIZE;
        left -= 1;
    }
    stocks_fit(passed, stock)
}

// What is carried on behind an entry.
fn pass(passed: Passed, entry: Entry) -> Passed
    requires { (passed.brought + brings entry ≤ most_brought) × (passed.still ≤ passed.brought) }
    ensures { result ≡ passed_on passed entry }
{
    let mark = entry.mark;
    let message = entry.message;
    let kind = message.kind;
    let quantity = quantity_of(kind) as u32;
    Passed {
        pending: pending_seen(passed.pending, mark),
        brought: passed.brought + quantity,
        still: added_if(is_pending(mark), passed.still, quantity),
        highest: higher(passed, entry),
    }
}

// A sum with a quantity more, or as it was.
fn added_if(more: bool, sum: u32, quantity: u32) -> u32
    requires { sum + quantity ≤ most_brought }
    ensures { result ≡ sum + cond more quantity 0 }
{
    if more {
        return sum + quantity;
    }
    sum
}

// The highest of the stocks saved, this entry's included.
fn higher(passed: Passed, entry: Entry) -> u64
    requires { passed.brought ≤ most_brought }
    ensures { result ≡ higher_with passed entry }
{
    let mark = entry.mark;
    let before = entry.before;
    let saved = (before.stock as u64) + ((MOST_BROUGHT - passed.brought) as u64);
    if !is_processed(mark) {
        return passed.highest;
    }
    if passed.highest < saved {
        return saved;
    }
    passed.highest
}

// Whether every stock, saved and held, leaves room for the Restocks still to be done from it.
fn stocks_fit(passed: Passed, stock: u32) -> bool
    requires { (passed.brought ≤ most_brought) × (passed.still ≤ passed.brought) }
    ensures { result ≡ stocks_fit passed stock }
{
    if passed.highest > MOST_TOGETHER - (passed.brought as u64) {
        return false;
    }
    stock <= MOST_STOCK - passed.still
}

// One pass: each place in its one form, and what it holds valid.
fn outstanding_sound(memory: &[u8], settings: Settings, start: usize, count: usize) -> bool
    requires { start + outstanding_size * count ≤ length memory.now }
    ensures { result ≡ outstanding_sound settings memory.now start count }
{
    let mut at = start;
    let mut left = count;
    while left > 0 {
        let end = at + OUTSTANDING_SIZE;
        let place = &memory[at..end];
        let sent = sent_of(place);
        if !sent_exact(place, sent) {
            return false;
        }
        if !sent_valid(settings, sent) {
            return false;
        }
        at += OUTSTANDING_SIZE;
        left -= 1;
    }
    true
}

// Whether an entry is valid and may stand behind another.
fn entry_fits(settings: Settings, before: Entry, passed: Passed, entry: Entry) -> bool
    ensures { result ≡ entry_accepted settings before passed entry }
{
    let mark = entry.mark;
    if !entry_valid(settings, entry) {
        return false;
    }
    if processed_behind(passed.pending, mark) {
        return false;
    }
    follows(before, entry)
}
