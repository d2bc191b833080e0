// The lamp model: messages, a gateway's state, the event order, and what doing a message changes and sends.
#![tactic(auto)]

ghost use Rattle.std.specs.Prelude.{◌≡◌};
ghost use Rattle.model.specs.Messages.{kind_number, origin_of, quantity_of, kind_of};
ghost use Rattle.model.specs.Doing.{hours_in_range, lead_times_valid};

// A message's kind, with the kind's own fields. The first four are events of the forecast. The last three are the
// round's: no queue holds them, and doing one would change nothing.
#[derive(Clone, Copy, PartialEq, Eq, Default)]
pub enum Kind {
    Failure { origin: u8 },
    Request { origin: u8 },
    Delivery { origin: u8 },
    Restock { quantity: u16 },
    #[default]
    Start,
    Lvt,
    Update,
}

// A message: its hour, its two gateways, its kind, and beside the kind the lamp. What a kind lacks is zero.
#[derive(Clone, Copy, PartialEq, Eq, Default)]
pub struct Message {
    pub hour: u32,
    pub from: u8,
    pub to: u8,
    pub kind: Kind,
    pub lamp: [u8; 18],
}

// A gateway's state.
#[derive(Clone, Copy, PartialEq, Eq, Default)]
pub struct State {
    pub stock: u32,
    pub failed: u32,
    pub fitted: u32,
    pub short: u32,
}

// The lead times of a gateway: the hours from a message that it does to the Request, the Delivery or the next Failure that it sends.
#[derive(Clone, Copy, PartialEq, Eq)]
pub struct LeadTimes {
    pub request: u32,
    pub delivery: u32,
    pub life: u32,
}

// Where a message is done: the gateway's own number, its supplier, the forecast's last hour and the gateway's lead times.
#[derive(Clone, Copy, PartialEq, Eq)]
pub struct Site {
    pub own: u8,
    pub supplier: u8,
    pub last: u32,
    pub hours: LeadTimes,
}

// Whether each lead time is in its range.
#[tactic(auto, unfolding(crate::specs::Doing::lead_times_valid))]
pub fn lead_times_valid(hours: LeadTimes) -> bool
    ensures { result ≡ lead_times_valid hours }
{
    hours_in_range(hours.request) && hours_in_range(hours.delivery) && hours_in_range(hours.life)
}

// Whether a lead time is 1 to 1,000,000 hours.
fn hours_in_range(hours: u32) -> bool
    ensures { result ≡ hours_in_range hours }
{
    (1..=1_000_000).contains(&hours)
}

// The kind's number.
pub fn kind_number(kind: Kind) -> u8
    ensures { result ≡ kind_number kind }
{
    match kind {
        Kind::Failure { .. } => 0,
        Kind::Request { .. } => 1,
        Kind::Delivery { .. } => 2,
        Kind::Restock { .. } => 3,
        Kind::Start => 4,
        Kind::Lvt => 5,
        Kind::Update => 6,
    }
}

// The gateway whose lamp the message is about, or zero.
pub fn origin_of(kind: Kind) -> u8
    ensures { result ≡ origin_of kind }
{
    match kind {
        Kind::Failure { origin } | Kind::Request { origin } | Kind::Delivery { origin } => origin,
        Kind::Restock { .. } | Kind::Start | Kind::Lvt | Kind::Update => 0,
    }
}

// The drivers that come in, or zero.
pub fn quantity_of(kind: Kind) -> u16
    ensures { result ≡ quantity_of kind }
{
    match kind {
        Kind::Restock { quantity } => quantity,
        Kind::Failure { .. } | Kind::Request { .. } | Kind::Delivery { .. } => 0,
        Kind::Start | Kind::Lvt | Kind::Update => 0,
    }
}

// The kind with that number; numbers past 6 do not come here.
pub fn kind_of(number: u8, origin: u8, quantity: u16) -> Kind
    ensures { result ≡ kind_of number origin quantity }
{
    match number {
        0 => Kind::Failure { origin },
        1 => Kind::Request { origin },
        2 => Kind::Delivery { origin },
        3 => Kind::Restock { quantity },
        4 => Kind::Start,
        5 => Kind::Lvt,
        _ => Kind::Update,
    }
}
