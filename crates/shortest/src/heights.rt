// Heights by which rows of facts to a target are weighed: rounds over the arcs turned round, from a start where the target alone is high.
ghost use Rattle.std.specs.Prelude.{◌≡◌, ◌+◌, ◌*◌, ◌≤◌, ◌<◌, length};
ghost use Rattle.meaning.specs.Limits.{most_events};
ghost use Rattle.problem.specs.Arcs.{net};
ghost use Rattle.facts.specs.Tests.{Within};
ghost use Rattle.shortest.specs.Heights.{start, Closes};

use facts::rounds::{ROWS, put_round};
use problem::{BIAS, EVENTS, Edge};

// The height of the target: a bias for each arc of a row.
pub const HIGHEST: u32 = EVENTS as u32 * BIAS;

// The start of the rounds to t.
#[tactic(auto, unfolding(crate::specs::Heights::start))]
fn start_at(t: usize) -> [u32; EVENTS]
    requires { t < most_events }
    ensures { result ≡ start t }
{
    let mut z = [0; EVENTS];
    z[t] = HIGHEST;
    z
}

// The rounds to t in a lent table, row r with the heights after r of them, until t stands above its start or `most` are made; gives the round after which it does.
// Not by facts::rounds::put_rounds, which ends where nothing changes: docs/DECISIONS.md, "`shortest` was added beside `facts`".
pub fn rounds_to(
    arcs: &[Edge],
    facts: &[u8],
    t: usize,
    most: usize,
    tab: &mut [[u32; EVENTS]; ROWS],
) -> Option<usize>
    requires { Within (net arcs.now) facts.now most_events × (t < most_events) × (most ≤ most_events) }
    ensures { Closes (net arcs.now) facts.now t most result tab.new }
{
    tab[0] = start_at(t);
    for r in 0..most {
        put_round::<true>(arcs, facts, tab, r);
        if HIGHEST < tab[r + 1][t] {
            return Some(r + 1);
        }
    }
    None
}
