// The single queue of document 01 for the last example. A message that is done stays: what it sends is later, so the next is always the
// one behind it.
#![tactic(auto)]

ghost use Rattle.std.specs.Prelude.{◌≡◌, [], ◌+◌, ◌*◌, ◌≤◌, length};
ghost use Rattle.model.specs.Doing.{most_stock};
ghost use Rattle.single_queue.specs.Inside.Queue.{place_of, entered};

use arrayvec::ArrayVec;
use doing::{reply_to, state_after};
use encoding::write_state;
use entries::later;
use lines::{Frames, push_plain, put, town_hours};
use memory::STATE_SIZE;
use model::{Message, Site, State};
use reader::read;

// One of the two gateways: its state, and the record of the events that it has done.
#[derive(Drop)]
struct Shelf<const R: usize> {
    state: State,
    events: ArrayVec<u8, R>,
}

// Feeds the queue the opening list, and does its messages, at most 512. Answers the records of the two gateways.
pub fn run<const R: usize>(list: &[u8]) -> [ArrayVec<u8, R>; 2] {
    let mut queue = ArrayVec::<Message, 1020>::new();
    enter_list(&mut queue, list);
    let mut first = shelf_with(0);
    let mut second = shelf_with(1);
    for k in 0..512 {
        let Some(&message) = queue.get(k) else {
            break;
        };
        if message.to == 0 {
            do_message(&mut queue, &mut first, message);
        } else {
            do_message(&mut queue, &mut second, message);
        }
    }
    [first.events, second.events]
}

// A gateway as it is set up, with so much stock.
fn shelf_with<const R: usize>(stock: u32) -> Shelf<R>
    ensures stock { result.state.stock ≡ stock }
    ensures events { result.events.items ≡ [] }
{
    Shelf {
        state: State {
            stock,
            ..State::default()
        },
        events: ArrayVec::new(),
    }
}

// Enters each message of the list.
fn enter_list<const N: usize>(queue: &mut ArrayVec<Message, N>, list: &[u8]) {
    for bytes in Frames(list) {
        if let Ok(frame) = read(bytes) {
            enter(queue, frame.message);
        }
    }
}

// Enters a message behind those that are not later. Where there is no place for it the queue stays as it is.
fn enter<const N: usize>(queue: &mut ArrayVec<Message, N>, message: Message)
    ensures { queue.new.items ≡ entered N queue.old.items message }
{
    let _ = queue.try_insert(place_of(queue, message), message);
}

// Where the first later message stands, or the end of the queue.
fn place_of(queue: &[Message], message: Message) -> usize
    ensures place { result ≡ place_of queue.now message }
    ensures within { result ≤ length queue.now }
{
    let later_at = queue.iter().position(|other| later(*other, message));
    later_at.unwrap_or(queue.len())
}

// The gateway that a message is to does it: what it sends is entered, and its frame and the state after it end the record.
fn do_message<const N: usize, const R: usize>(
    queue: &mut ArrayVec<Message, N>,
    shelf: &mut Shelf<R>,
    message: Message,
)
    requires { shelf.old.state.stock + 65535 ≤ most_stock }
    ensures { shelf.new.state.stock ≤ shelf.old.state.stock + 65535 }
{
    if let Some(sent) = reply_to(site(message.to), shelf.state, message) {
        enter(queue, sent);
    }
    shelf.state = state_after(shelf.state, message.kind);
    push_event(&mut shelf.events, message, shelf.state);
}

// Where a gateway does its messages. Supplier of both is gateway 1, and the last hour is 100.
fn site(own: u8) -> Site {
    Site {
        own,
        supplier: 1,
        last: 100,
        hours: town_hours(),
    }
}

// Puts a message's frame and the state after it at the end of a record, which stays as it is where there is no room for both.
fn push_event<const N: usize>(events: &mut ArrayVec<u8, N>, message: Message, state: State) {
    let mut event = ArrayVec::<u8, 44>::new();
    push_plain(&mut event, message);
    let mut bytes = [0u8; STATE_SIZE];
    write_state(&mut bytes, 0, state);
    put(&mut event, &bytes);
    put(events, &event);
}
