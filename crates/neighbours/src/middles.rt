// Figure 2's row, the same for all gateways of one n, for a caller that asks for many of them.
ghost use Rattle.std.specs.Prelude.{◌≡◌, ◌≤◌, ◌<◌};
ghost use Rattle.routing.specs.Arcs as Arcs;
ghost use Rattle.routing.specs.Arcs.{from, to, arc_count, round_messages};
ghost use Rattle.routing.specs.AtMostTwo.{listed};

use routing::Totals;
use routing::at_most_two::AtMostTwo;

// Whether the two trees of n gateways share the bottom row, Mid0 and Mid1.
#[derive(Clone, Copy)]
pub struct Middles {
    pub n: u32,
    pub shared: bool,
    pub mid0: u32,
    pub mid1: u32,
    ghost in_range: { (1 ≤ n) × (n ≤ 65535) },
    ghost figure: { (shared ≡ Arcs.shared n) × (mid0 ≡ Arcs.mid0 n) × (mid1 ≡ Arcs.mid1 n) },
    ghost below: { (mid0 < n) × (mid1 < n) },
}

impl Middles {
    // Figure 2's pen0 is half - 1 here, and its pen1 n - half.
    pub fn new(n: u32) -> Middles
        requires { (1 ≤ n) × (n ≤ 65535) }
        ensures { result.n ≡ n }
    {
        let mid0 = (n - 1) / 2;
        let mut pen0: u32 = 1;
        while pen0 < mid0 + 1 {
            pen0 = 2 * pen0 + 1;
        }
        let half = pen0 / 2;
        if n - half <= 2 * half + 1 {
            Middles {
                n,
                shared: true,
                mid0: n - half - 1,
                mid1: half,
            }
        } else {
            Middles {
                n,
                shared: false,
                mid0,
                mid1: n / 2,
            }
        }
    }

    // Figure 2's from.
    pub fn from_of(self, own: u32) -> AtMostTwo<u32>
        requires { own < self.n }
        ensures { listed result ≡ from self.n own }
    {
        let n = self.n;
        let twice = 2 * own;
        if own == 0 {
            AtMostTwo::None
        } else if own <= self.mid0 {
            AtMostTwo::One((own - 1) / 2)
        } else if self.mid1 + n + 1 <= twice {
            AtMostTwo::Two(twice - n, twice - n - 1)
        } else if self.mid1 + n == twice {
            AtMostTwo::One(twice - n)
        } else {
            AtMostTwo::One(n - own - 1)
        }
    }

    // Figure 2's to.
    pub fn to_of(self, own: u32) -> AtMostTwo<u32>
        requires { own < self.n }
        ensures { listed result ≡ to self.n own }
    {
        let n = self.n;
        if own == n - 1 {
            AtMostTwo::None
        } else if own >= self.mid1 {
            AtMostTwo::One((n + own + 1) / 2)
        } else if self.mid0 >= 2 * own + 2 {
            AtMostTwo::Two(2 * own + 1, 2 * own + 2)
        } else if self.mid0 == 2 * own + 1 {
            AtMostTwo::One(2 * own + 1)
        } else {
            AtMostTwo::One(n - own - 1)
        }
    }

    // The number of arcs and the messages of a round: each gateway but the last tells one, and half of mid0 tell a second.
    pub fn totals(self) -> Totals
        ensures { (result.arcs ≡ arc_count self.n) × (result.messages ≡ round_messages self.n) }
    {
        let arcs = self.n - 1 + self.mid0 / 2;
        Totals {
            arcs,
            messages: 2 * arcs + self.n - 1,
        }
    }
}
