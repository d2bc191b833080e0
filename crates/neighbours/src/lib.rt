// The neighbours of a gateway, and the arcs and messages of a round. Figure 2's signed tests are rearranged so that no value is
// below 0. neighbours_of and totals_of take any numbers; the functions between them ask their callers, in this repository, for
// numbers in range.
#![tactic(auto)]

pub mod middles; // middles.rt: Figure 2's row, and a gateway's neighbours by it

ghost use Rattle.std.specs.Prelude.{◌≡◌};
ghost use Rattle.routing.specs.Answers.{neighbours_of, totals_of};

use crate::middles::Middles;
use refusal::Refusal;
use routing::{Neighbours, Totals};

// The neighbours of gateway own among n.
pub fn neighbours_of(n: u32, own: u32) -> Result<Neighbours, Refusal>
    ensures { result ≡ neighbours_of n own }
{
    if n > 65535 || own >= n {
        return Err(Refusal::OutOfRange);
    }
    let middles = Middles::new(n);
    Ok(Neighbours {
        from: middles.from_of(own),
        to: middles.to_of(own),
    })
}

// The number of arcs and the messages of a round among n.
pub fn totals_of(n: u32) -> Result<Totals, Refusal>
    ensures { result ≡ totals_of n }
{
    if n < 1 || n > 65535 {
        return Err(Refusal::OutOfRange);
    }
    Ok(Middles::new(n).totals())
}
