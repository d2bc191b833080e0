// The round at a gateway: whom it hears and tells.
ghost use Rattle.std.specs.Prelude.{◌≡◌, ◌≤◌, ◌<◌};
ghost use Rattle.std.specs.List.{All};
ghost use Rattle.routing.specs.Arcs.{from, to, children};
ghost use Rattle.routing.specs.AtMostTwo.{listed};
ghost use Rattle.gateway.specs.Rounds.{bit_of, all_bits};

use neighbours::middles::Middles;
use routing::at_most_two::AtMostTwo;

// The gateways that gateway own of n hears from.
pub fn heard(n: u8, own: u8) -> AtMostTwo<u8>
    requires { own < n }
    ensures { listed result ≡ from n own }
{
    narrowed(Middles::new(n as u32).from_of(own as u32))
}

// The gateways that it tells.
pub fn told(n: u8, own: u8) -> AtMostTwo<u8>
    requires { own < n }
    ensures { listed result ≡ to n own }
{
    narrowed(Middles::new(n as u32).to_of(own as u32))
}

// Numbers below 256, a byte each.
fn narrowed(among: AtMostTwo<u32>) -> AtMostTwo<u8>
    requires { All (λ k. k < 256) (listed among) }
    ensures { listed result ≡ listed among }
{
    among.map(|k| k as u8)
}

// The gateways that an Update goes on to.
pub fn children(n: u8, own: u8) -> AtMostTwo<u8>
    ensures { listed result ≡ children n own }
{
    let left = 2 * (own as u16) + 1;
    if n as u16 <= left {
        AtMostTwo::None
    } else if n as u16 == left + 1 {
        AtMostTwo::One(left as u8)
    } else {
        AtMostTwo::Two(left as u8, (left + 1) as u8)
    }
}

// The bit of a gateway among these: 1 for the first, 2 for the second, 0 where it is not there.
pub fn bit_of(k: u8, among: AtMostTwo<u8>) -> u8
    ensures { (result ≡ bit_of k (listed among)) × (result ≤ 2) }
{
    if among.get(0) == Some(k) {
        1
    } else if among.get(1) == Some(k) {
        2
    } else {
        0
    }
}

// The bits of all of these.
pub fn all_bits(among: AtMostTwo<u8>) -> u8
    ensures { result ≡ all_bits (listed among) }
{
    match among {
        AtMostTwo::None => 0,
        AtMostTwo::One(_) => 1,
        AtMostTwo::Two(_, _) => 3,
    }
}
