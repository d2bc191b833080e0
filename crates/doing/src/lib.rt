// Doing a message: the state after it, and what it sends.
#![tactic(auto)]

ghost use Rattle.std.specs.Prelude.{◌≡◌, ◌+◌, ◌≤◌};
ghost use Rattle.model.specs.Messages.{quantity_of};
ghost use Rattle.model.specs.Doing.{after, counted, most_stock, not_past, reply, reply_with, reply_to};

use model::{Kind, Message, Site, State};

// The state after a message of that kind: every kind, in every state whose stock, with what a Restock brings, is no more than it can come to.
pub fn state_after(state: State, kind: Kind) -> State
    requires { state.stock + quantity_of kind ≤ most_stock }
    ensures { result ≡ after state kind }
{
    match kind {
        Kind::Failure { .. } => State {
            failed: count(state.failed),
            ..state
        },
        Kind::Request { .. } if 0 < state.stock => State {
            stock: state.stock - 1,
            ..state
        },
        Kind::Request { .. } => State {
            short: count(state.short),
            ..state
        },
        Kind::Delivery { .. } => State {
            fitted: count(state.fitted),
            ..state
        },
        Kind::Restock { quantity } => State {
            stock: state.stock + (quantity as u32),
            ..state
        },
        Kind::Start | Kind::Lvt | Kind::Update => state,
    }
}

// The message that doing one sends, if it sends one: every kind, in every state.
#[tactic(auto, unfolding(model::specs::Doing::sent))]
pub fn reply_to(site: Site, state: State, message: Message) -> Option<Message>
    ensures { result ≡ reply_to site state message }
{
    match message.kind {
        Kind::Failure { .. } => request_for(site, message, site.own),
        Kind::Request { origin } if 0 < state.stock => {
            let delivery = Kind::Delivery { origin };
            sending(site, message, site.hours.delivery, origin, delivery)
        }
        Kind::Request { origin } => request_for(site, message, origin),
        Kind::Delivery { .. } => {
            let failure = Kind::Failure { origin: site.own };
            sending(site, message, site.hours.life, site.own, failure)
        }
        Kind::Restock { .. } | Kind::Start | Kind::Lvt | Kind::Update => None,
    }
}

// The Request to the supplier for that origin.
fn request_for(site: Site, cause: Message, origin: u8) -> Option<Message>
    ensures { result ≡ reply_with (not_past site.last (reply site cause site.hours.request site.supplier (Kind.Request origin))) }
{
    let request = Kind::Request { origin };
    sending(site, cause, site.hours.request, site.supplier, request)
}

// A counter with one more, which stops at its largest value.
fn count(counter: u32) -> u32
    ensures { result ≡ counted counter }
{
    counter.saturating_add(1)
}

// A message sent so many hours after its cause, unless that is past the last hour.
fn sending(site: Site, cause: Message, hours: u32, to: u8, kind: Kind) -> Option<Message>
    ensures { result ≡ reply_with (not_past site.last (reply site cause hours to kind)) }
{
    let hour = (cause.hour as u64) + (hours as u64);
    if (site.last as u64) < hour {
        return None;
    }
    Some(Message {
        hour: hour as u32,
        from: site.own,
        to,
        kind,
        ..cause
    })
}
