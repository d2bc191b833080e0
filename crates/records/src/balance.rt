// The balance of a record, as a stock book has it: what the Restocks brought, how many Requests found stock, and the stock in the last
// event's state. One pass checks the record, one follows its stock.
ghost use Rattle.std.specs.Prelude.{◌≡◌, ◌<◌, ◌≤◌, cond, ltb, length};
ghost use Rattle.model.specs.declared.Kind.TheVariants.{Request, Restock};
ghost use Rattle.records.specs.Events.{record_refusal, event_refusal, event_of, events_of};
ghost use Rattle.records.specs.Balancing as Balancing;
ghost use Rattle.records.specs.Balancing.{balance_in, balanced};
ghost use Rattle.records.specs.Inside.Booking.{entered, entered_event, entered_all, opened_book, RoomInBook};
ghost use Rattle.records.specs.declared.StockField.TheVariants.{Present};

use crate::events::Events;
use crate::{RECORD_LIMIT, RESTOCK, StockField, Weights, pass_over};
use buffer::Number;
use frame::lamps::LAMP_END;
use frame::tables::{QUANTITY_END, QUANTITY_PLACE};
use refusal::Refusal;

// The figures of a record: what the Restocks brought, how many Requests found stock, and the last stock.
#[derive(Clone, Copy)]
pub struct Figures {
    pub received: u64,
    pub served: u64,
    pub stock: u64,
}

// The figures of the events so far, and the stock that the lamp model gives after them from the opening one on.
#[derive(Clone, Copy)]
pub struct Book {
    pub received: u64,
    pub served: u64,
    pub followed: u64,
    pub stock: u64,
}

// The most that an opening stock has.
const MOST_OPENING_STOCK: u32 = 65535;

// The byte of a Request's kind.
const REQUEST: u8 = 1;

// The figures of a whole record and an opening stock.
pub fn balance(bytes: &[u8], opening: u32) -> Result<Figures, Refusal>
    ensures { balance_in result ≡ balanced opening bytes.now }
{
    if opening > MOST_OPENING_STOCK || bytes.len() >= RECORD_LIMIT {
        return Err(Refusal::OutOfRange);
    }
    balance_for(bytes, opening)
}

// The refusals of the record, event by event, or its figures.
fn balance_for(bytes: &[u8], opening: u32) -> Result<Figures, Refusal>
    requires { (opening ≤ 65535) × (length bytes.now < 281474976710656) }
    ensures { balance_in result ≡ Balancing.balance_for opening bytes.now }
{
    pass_over(
        bytes,
        StockField::Present,
        Weights {
            lamp: 0,
            restock: 0,
        },
    )?;
    let book = book_of(bytes, opening);
    Ok(Figures {
        received: book.received,
        served: book.served,
        stock: book.stock,
    })
}

// The book of all events of a record that is taken.
fn book_of(bytes: &[u8], opening: u32) -> Book
    requires { (opening ≤ 65535) × (length bytes.now < 281474976710656) × (record_refusal Present bytes.now ≡ 0) }
    ensures { result ≡ entered_all (opened_book opening) (events_of Present bytes.now) }
{
    let first = u64::from(opening);
    let mut book = Book {
        received: 0,
        served: 0,
        followed: first,
        stock: first,
    };
    let events = Events {
        rest: bytes,
        stock: StockField::Present,
    };
    for event in events {
        book = booked(book, event);
    }
    book
}

// The book with an event that is taken.
fn booked(book: Book, event: &[u8]) -> Book
    requires { (event_refusal Present event.now ≡ 0) × RoomInBook book }
    ensures { result ≡ entered_event book (event_of Present event.now) }
{
    match event[1] {
        REQUEST => requested(book, u32::read(event, LAMP_END)),
        RESTOCK => restocked(
            book,
            u16::read(event, QUANTITY_PLACE),
            u32::read(event, QUANTITY_END),
        ),
        _ => Book {
            stock: u64::from(u32::read(event, LAMP_END)),
            ..book
        },
    }
}

// The book with a Restock of that quantity.
fn restocked(book: Book, quantity: u16, stock: u32) -> Book
    requires { RoomInBook book }
    ensures { result ≡ entered book (Restock quantity) stock }
{
    let more = u64::from(quantity);
    Book {
        received: book.received + more,
        followed: book.followed + more,
        stock: u64::from(stock),
        ..book
    }
}

// The book with a Request, which is served where there is stock.
fn requested(book: Book, stock: u32) -> Book
    requires { RoomInBook book }
    ensures { result ≡ entered book (Request 0) stock }
{
    let drawn = drawn_from(book.followed);
    Book {
        served: book.served + drawn,
        followed: book.followed - drawn,
        stock: u64::from(stock),
        ..book
    }
}

// One driver, if there is one.
fn drawn_from(stock: u64) -> u64
    ensures { (result ≡ cond (ltb 0 stock) 1 0) × (result ≤ stock) × (result ≤ 1) }
{
    stock.min(1)
}
