// A record, read event by event: each is its frame, then the state after it.
#![tactic(auto)]

pub mod events; // events.rt: the events of a record that is taken, one after another
pub mod balance; // balance.rt: what the Restocks brought, the Requests that found stock, and the last stock

ghost use Rattle.std.specs.Prelude.{◌≡◌, ◌+◌, ◌<◌, ◌≤◌, length, IfOk};
ghost use Rattle.refusal.specs.Numbers.{number_in};
ghost use Rattle.frame.specs.Reasons.{reading, frame_read};
ghost use Rattle.memory.specs.Layout.{state_size};
ghost use Rattle.records.specs.Events.{state_size_of, is_event, frame_refusal, event_refusal};
ghost use Rattle.records.specs.declared.StockField.TheVariants.{Present, Old};
ghost use Rattle.records.specs.Inside.Finding.{event_at, Finds, length_of_kind, weight_of, numbered, passed_in, passed_as, good_with_lamp, good_restock, good_gateways};

use buffer::{Number, array_at};
use frame::lamps::{LAMP_END, LAMP_PLACE};
use frame::pieces::frame_end;
use frame::tables::{HOUR_PLACE, ORIGIN_PLACE, QUANTITY_END};
use frame::{Frame, Sense};
use limits::check_where;
use memory::STATE_SIZE;
use model::{Kind, kind_number, kind_of, origin_of};
use reader::read_where;
use refusal::Refusal;
use rules::{all_between, gateways_agree};

// A record of so many bytes or more is refused.
pub const RECORD_LIMIT: usize = 281474976710656;

// The N and the H that a record is read with.
const MOST_GATEWAYS: u16 = 255;

const LATEST_HOUR: u32 = 4294967294;

// The number that is no gateway's in a record.
const NO_GATEWAY: u8 = 255;

// The map of a Failure, Request or Delivery, and of a Restock.
const LAMP_MAP: u8 = 63;

const RESTOCK_MAP: u8 = 79;

// The byte of a Restock's kind, and that of the last kind before it.
pub const RESTOCK: u8 = 3;

const DELIVERY: u8 = 2;

// The size of a state with the old stock.
const OLD_STATE_SIZE: usize = 14;

// How wide the stock is in a record's states: four bytes, or two in a record from before.
#[derive(Clone, Copy)]
pub enum StockField {
    Present,
    Old,
}

// 1 for a record with the old stock, else 0.
impl TryFrom<u32> for StockField {
    type Error = Refusal;

    ghost try_from_gives = { λ number r. r ≡ numbered Present Old number };

    fn try_from(number: u32) -> Result<StockField, Refusal> {
        match number {
            0 => Ok(StockField::Present),
            1 => Ok(StockField::Old),
            _ => Err(Refusal::OutOfRange),
        }
    }
}

// An event at a position of a record: the byte of its kind, and the position behind it.
#[derive(Clone, Copy)]
pub struct Found {
    pub kind: u8,
    pub end: usize,
}

// What an event weighs in a pass over a record: a Failure, Request or Delivery, and a Restock.
#[derive(Clone, Copy)]
pub struct Weights {
    pub lamp: usize,
    pub restock: usize,
}

impl Weights {
    // What an event of that kind weighs.
    fn of(self, kind: u8) -> usize
        ensures { result ≡ weight_of self kind }
    {
        if kind == RESTOCK {
            self.restock
        } else {
            self.lamp
        }
    }
}

// The first event that is refused, with what, and what the events before it weigh.
#[derive(Clone, Copy)]
pub struct RefusedEvent {
    pub refusal: Refusal,
    pub weight: usize,
}

impl From<RefusedEvent> for Refusal {
    ghost from_gives = { λ event refusal. refusal ≡ event.refusal };

    fn from(event: RefusedEvent) -> Refusal {
        event.refusal
    }
}

// One pass over a record, up to its first refusal: what its events weigh. It checks what `Events` takes as checked.
pub fn pass_over(bytes: &[u8], stock: StockField, weights: Weights) -> Result<usize, RefusedEvent>
    requires { (weights.lamp ≤ 27 + state_size_of stock) × (weights.restock ≤ 10 + state_size_of stock) }
    ensures { passed_in result ≡ passed_as stock weights bytes.now }
{
    let mut weight = 0;
    let mut at = 0;
    while at < bytes.len() {
        match event_at(bytes, at, stock) {
            Ok(found) => {
                weight += weights.of(found.kind);
                at = found.end;
            }
            Err(refusal) => return Err(RefusedEvent { refusal, weight }),
        }
    }
    Ok(weight)
}

// The event that begins at a position. Nearly every one is good, and is told from its bytes at their places; any other is read.
pub fn event_at(bytes: &[u8], at: usize, stock: StockField) -> Result<Found, Refusal>
    requires { at < length bytes.now }
    ensures number { number_in result ≡ event_refusal stock (event_at stock bytes.now at) }
    ensures event { IfOk result (Finds stock bytes.now at) }
{
    let left = bytes.len() - at;
    let state = state_size(stock);
    if left >= LAMP_END + state && good_with_lamp(&bytes[at..at + LAMP_END]) {
        return Ok(Found {
            kind: bytes[at + 1],
            end: at + (LAMP_END + state),
        });
    }
    if left >= QUANTITY_END + state && good_restock(&bytes[at..at + QUANTITY_END]) {
        return Ok(Found {
            kind: RESTOCK,
            end: at + (QUANTITY_END + state),
        });
    }
    event_read(bytes, at, stock)
}

// The size of a state with that stock.
pub fn state_size(stock: StockField) -> usize
    ensures { (result ≡ state_size_of stock) × (result ≤ state_size) }
{
    match stock {
        StockField::Present => STATE_SIZE,
        StockField::Old => OLD_STATE_SIZE,
    }
}

// Its frame's refusals come first, then that of a cut state.
fn event_read(bytes: &[u8], at: usize, stock: StockField) -> Result<Found, Refusal>
    requires { at < length bytes.now }
    ensures number { number_in result ≡ event_refusal stock (event_at stock bytes.now at) }
    ensures event { IfOk result (Finds stock bytes.now at) }
{
    let end = frame_end(bytes, at);
    let left = bytes.len() - end;
    let state = state_size(stock);
    let frame = event_frame(&bytes[at..end])?;
    if left < state {
        return Err(Refusal::WrongLength);
    }
    Ok(Found {
        kind: kind_number(frame.message.kind),
        end: end + state,
    })
}

// The frame of an event, or what it is refused with.
fn event_frame(bytes: &[u8]) -> Result<Frame, Refusal>
    ensures number { number_in result ≡ frame_refusal (reading bytes.now) }
    ensures frame { IfOk result (λ frame. frame ≡ frame_read bytes.now) }
{
    let frame = read_where(bytes, is_event)?;
    check_where(true, frame, MOST_GATEWAYS, LATEST_HOUR)?;
    Ok(frame)
}

// Whether a frame is a plain message of kind 0 to 3.
fn is_event(frame: Frame) -> bool
    ensures { result ≡ is_event frame }
{
    matches!(frame.sense, Sense::Plain)
        && !matches!(frame.message.kind, Kind::Start | Kind::Lvt | Kind::Update)
}

// The whole length of an event of that kind, which is 0 to 3.
pub fn event_length(kind: u8, stock: StockField) -> usize
    ensures { result ≡ length_of_kind stock kind }
{
    let frame = if kind == RESTOCK {
        QUANTITY_END
    } else {
        LAMP_END
    };
    frame + state_size(stock)
}

#[tactic(auto, unfolding(crate::specs::Inside::Finding::good_with_lamp))]
// Whether the frame of a Failure, Request or Delivery is good.
fn good_with_lamp(frame: &[u8]) -> bool
    requires { 27 ≤ length frame.now }
    ensures { result ≡ good_with_lamp frame.now }
{
    frame[0] == LAMP_MAP
        && frame[1] <= DELIVERY
        && good_gateways(
            frame[2],
            frame[3],
            kind_of(frame[1], frame[ORIGIN_PLACE], 0),
        )
        && u32::read(frame, HOUR_PLACE) <= LATEST_HOUR
        && all_between(array_at(frame, LAMP_PLACE), 33, 126)
}

#[tactic(auto, unfolding(crate::specs::Inside::Finding::good_restock))]
// Whether the frame of a Restock is good.
fn good_restock(frame: &[u8]) -> bool
    requires { 10 ≤ length frame.now }
    ensures { result ≡ good_restock frame.now }
{
    frame[0] == RESTOCK_MAP
        && frame[1] == RESTOCK
        && good_gateways(frame[2], frame[3], Kind::Restock { quantity: 0 })
        && u32::read(frame, HOUR_PLACE) <= LATEST_HOUR
}

#[tactic(auto, unfolding(crate::specs::Inside::Finding::good_gateways))]
// Whether the gateways agree and their numbers are below 255.
fn good_gateways(from: u8, to: u8, kind: Kind) -> bool
    ensures { result ≡ good_gateways from to kind }
{
    from != NO_GATEWAY
        && to != NO_GATEWAY
        && origin_of(kind) != NO_GATEWAY
        && gateways_agree(from, to, kind)
}
