// The views of a record: each reader gets the fields that it is to see of each event, by a map of the view's own, and nothing else.
// One pass checks the record and measures the view, one writes it.
#![tactic(auto)]

ghost use Rattle.std.specs.Prelude.{◌≡◌, ◌+◌, ◌≤◌, ◌∷◌, length};
ghost use Rattle.buffer.specs.Slice.{part, write, Puts};
ghost use Rattle.memory.specs.Layout.{state_size};
ghost use Rattle.records.specs.Events.{state_size_of, record_refusal, event_refusal, event_of};
ghost use Rattle.records.specs.Inside.Finding.{numbered};
ghost use Rattle.views.specs.Bytes as Bytes;
ghost use Rattle.views.specs.Bytes.{event_view};
ghost use Rattle.views.specs.Viewing.{view_for, viewed, answer_in};
ghost use Rattle.views.specs.declared.Reader.TheVariants.{Purchasing, Maintenance};
ghost use Rattle.views.specs.Inside.Parts.{lengths_for, head_of, front_of, state_from, widened};

use buffer::copy;
use frame::lamps::{LAMP_END, LAMP_PLACE};
use frame::tables::{HOUR_PLACE, ORIGIN_PLACE, QUANTITY_END, QUANTITY_PLACE};
use memory::STATE_SIZE;
use records::events::Events;
use records::{RECORD_LIMIT, RESTOCK, StockField, Weights, pass_over};
use refusal::Refusal;

// Who reads a record.
#[derive(Clone, Copy)]
pub enum Reader {
    Purchasing,
    Maintenance,
}

// 0 for purchasing, 1 for maintenance.
impl TryFrom<u32> for Reader {
    type Error = Refusal;

    ghost try_from_gives = { λ number r. r ≡ numbered Purchasing Maintenance number };

    fn try_from(number: u32) -> Result<Reader, Refusal> {
        match number {
            0 => Ok(Reader::Purchasing),
            1 => Ok(Reader::Maintenance),
            _ => Err(Refusal::OutOfRange),
        }
    }
}

// What putting a view's front gives: the position behind it, and where the state stands in the event.
#[derive(Clone, Copy)]
pub struct Front {
    pub position: usize,
    pub state: usize,
}

// The maps of each reader, of a Failure, Request or Delivery and of a Restock: a bit for each field that the reader sees and the kind has.
const PURCHASING_MAP: u8 = 123;

const PURCHASING_RESTOCK_MAP: u8 = 127;

const MAINTENANCE_MAP: u8 = 15;

const MAINTENANCE_RESTOCK_MAP: u8 = 3;

// The bytes of purchasing's view: map, hour and kind, of a Restock the quantity, and the state.
const PURCHASING_LENGTH: usize = 6 + STATE_SIZE;

const PURCHASING_RESTOCK_LENGTH: usize = 8 + STATE_SIZE;

// The bytes of maintenance's view: map, hour and kind, and of an event with a lamp the lamp and the origin.
const MAINTENANCE_LENGTH: usize = 25;

const MAINTENANCE_RESTOCK_LENGTH: usize = 6;

// Where the state stands in an event of the record, behind the frame: of a Failure, Request or Delivery, and of a Restock.
const LAMP_STATE: usize = LAMP_END;

const RESTOCK_STATE: usize = QUANTITY_END;

// The view of a record for a reader, by its number; old_stock is 1 for a record with the old stock, else 0. Gives the bytes written.
pub fn view(bytes: &[u8], output: &mut [u8], reader: u32, old_stock: u32) -> Result<usize, Refusal>
    ensures { record { answer = answer_in result; output = output.new } ≡ viewed reader old_stock bytes.now output.old }
{
    let reader = Reader::try_from(reader)?;
    let stock = StockField::try_from(old_stock)?;
    if bytes.len() >= RECORD_LIMIT {
        return Err(Refusal::OutOfRange);
    }
    view_for(bytes, output, reader, stock)
}

// The refusals of the record come first, event by event, and no room last.
fn view_for(
    bytes: &[u8],
    output: &mut [u8],
    reader: Reader,
    stock: StockField,
) -> Result<usize, Refusal>
    ensures { record { answer = answer_in result; output = output.new } ≡ view_for reader stock bytes.now output.old }
{
    let length = pass_over(bytes, stock, lengths_for(reader))?;
    if output.len() < length {
        return Err(Refusal::NoRoom);
    }
    write_view(bytes, output, reader, stock);
    Ok(length)
}

// The bytes that a view has of an event.
fn lengths_for(reader: Reader) -> Weights
    ensures { result ≡ lengths_for reader }
{
    match reader {
        Reader::Purchasing => Weights {
            lamp: PURCHASING_LENGTH,
            restock: PURCHASING_RESTOCK_LENGTH,
        },
        Reader::Maintenance => Weights {
            lamp: MAINTENANCE_LENGTH,
            restock: MAINTENANCE_RESTOCK_LENGTH,
        },
    }
}

// Writes the view of a record that is taken.
fn write_view(bytes: &[u8], output: &mut [u8], reader: Reader, stock: StockField)
    requires { (record_refusal stock bytes.now ≡ 0) × (length (Bytes.view reader stock bytes.now) ≤ length output.old) }
    ensures { output.new ≡ write 0 (Bytes.view reader stock bytes.now) output.old }
{
    let mut position = 0;
    let events = Events { rest: bytes, stock };
    for event in events {
        position = put_event(output, position, event, reader, stock);
    }
}

// Puts what the reader gets of an event from a position on, and gives the position behind it.
fn put_event(output: &mut [u8], at: usize, event: &[u8], reader: Reader, stock: StockField) -> usize
    requires { (event_refusal stock event.now ≡ 0) × (at + length (event_view reader (event_of stock event.now)) ≤ length output.old) }
    ensures { Puts at (event_view reader (event_of stock event.now)) output.old output.new result }
{
    match reader {
        Reader::Purchasing => put_for_purchasing(output, at, event, stock),
        Reader::Maintenance => put_for_maintenance(output, at, event, stock),
    }
}

// Hour, kind, quantity and the state.
fn put_for_purchasing(output: &mut [u8], at: usize, event: &[u8], stock: StockField) -> usize
    requires { (event_refusal stock event.now ≡ 0) × (at + length (event_view Purchasing (event_of stock event.now)) ≤ length output.old) }
    ensures { Puts at (event_view Purchasing (event_of stock event.now)) output.old output.new result }
{
    let front = put_front(output, at, event, stock);
    put_state(output, front.position, event, front.state, stock);
    front.position + STATE_SIZE
}

// What stands before the state: map, hour, kind and the quantity of a Restock.
fn put_front(output: &mut [u8], at: usize, event: &[u8], stock: StockField) -> Front
    requires { (event_refusal stock event.now ≡ 0) × (at + length (front_of event.now) ≤ length output.old) }
    ensures { Puts at (front_of event.now) output.old output.new result.position × (result.state ≡ state_from event.now) }
{
    if event[1] == RESTOCK {
        put_head(output, at, PURCHASING_RESTOCK_MAP, event);
        copy(output, at + 6, &event[QUANTITY_PLACE..QUANTITY_END]);
        return Front {
            position: at + 8,
            state: RESTOCK_STATE,
        };
    }
    put_head(output, at, PURCHASING_MAP, event);
    Front {
        position: at + 6,
        state: LAMP_STATE,
    }
}

// Hour, kind, lamp and origin.
fn put_for_maintenance(output: &mut [u8], at: usize, event: &[u8], stock: StockField) -> usize
    requires { (event_refusal stock event.now ≡ 0) × (at + length (event_view Maintenance (event_of stock event.now)) ≤ length output.old) }
    ensures { Puts at (event_view Maintenance (event_of stock event.now)) output.old output.new result }
{
    if event[1] == RESTOCK {
        put_head(output, at, MAINTENANCE_RESTOCK_MAP, event);
        return at + 6;
    }
    put_head(output, at, MAINTENANCE_MAP, event);
    copy(output, at + 6, &event[LAMP_PLACE..LAMP_END]);
    output[at + 24] = event[ORIGIN_PLACE];
    at + 25
}

// What every view begins with: its map, the hour and the kind.
fn put_head(output: &mut [u8], at: usize, map: u8, event: &[u8])
    requires { (8 ≤ length event.now) × (at + 6 ≤ length output.old) }
    ensures { output.new ≡ write at (head_of map event.now) output.old }
{
    output[at] = map;
    copy(output, at + 1, &event[HOUR_PLACE..ORIGIN_PLACE]);
    output[at + 5] = event[1];
}

// Puts a state with its stock in four bytes.
fn put_state(output: &mut [u8], at: usize, event: &[u8], from: usize, stock: StockField)
    requires { (at + state_size ≤ length output.old) × (from + state_size_of stock ≤ length event.now) }
    ensures { output.new ≡ write at (widened stock (part event.now from (state_size_of stock))) output.old }
{
    match stock {
        StockField::Present => copy(output, at, &event[from..from + STATE_SIZE]),
        StockField::Old => copy_old_state(output, at, event, from),
    }
}

// Copies the fourteen bytes of a state with the old stock behind two zero bytes.
fn copy_old_state(output: &mut [u8], at: usize, event: &[u8], from: usize)
    requires { (at + 16 ≤ length output.old) × (from + 14 ≤ length event.now) }
    ensures { output.new ≡ write at (0 ∷ 0 ∷ part event.now from 14) output.old }
{
    copy(output, at, &[0, 0]);
    copy(output, at + 2, &event[from..from + 14]);
}
