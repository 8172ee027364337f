// The rounds of a test: in a round each fact raises the time of its head, going by the times before the round. They end with the first that raises no event.
ghost use Rattle.std.specs.Prelude.{◌≡◌, ℕ, [], ◌+◌, ◌-◌, ◌<◌, ◌≤◌, max, length, get_or, set};
ghost use Rattle.meaning.specs.Limits.{most_events};
ghost use Rattle.problem.specs.Arcs.{at, net};
ghost use Rattle.facts.specs.Tests.{farthest, Within};
ghost use Rattle.facts.specs.Rounds.{ceiling, aimed, round, Ended, Stays, Rising};

use problem::{BIAS, EVENTS, Edge};

// A row for the start and one for each round.
pub const ROWS: usize = EVENTS + 1;

// The later of two bounds on a time: old, and u - b where that is above it.
// Not old.max(u.saturating_sub(b)): that becomes a branch which the processor can't predict, and the search took half as long again.
fn raised(old: u32, u: u32, b: u32) -> u32
    ensures { result ≡ max old (u - b) }
{
    if b <= u { old.max(u - b) } else { old }
}

// A round of all facts, or of all facts turned round, from row k of the lent table, as its row k + 1: one function for both ways, as `aimed` says them.
// It is made where it lies: handed over by value each row was copied three times (docs/DECISIONS.md, "What is put is put where it lies").
pub fn put_round<const TURNED: bool>(arcs: &[Edge], facts: &[u8], t: &mut [[u32; EVENTS]], k: usize)
    requires { Within (net arcs.now) facts.now most_events × (k + 1 < length t.old) × ((v : ℕ) → at (get_or t.old k []) v ≤ ceiling) }
    ensures { t.new ≡ set t.old (k + 1) (round (aimed TURNED (net arcs.now)) facts.now (get_or t.old k [])) }
{
    t[k + 1] = t[k];
    for &fact in facts {
        let arc = &arcs[usize::from(fact)];
        let (x, y) = if TURNED {
            (arc.y, arc.x)
        } else {
            (arc.x, arc.y)
        };
        let x = usize::from(x);
        let y = usize::from(y);
        t[k + 1][x] = raised(t[k + 1][x], t[k][y] + BIAS, arc.b);
    }
}

// The rounds from start in a lent table, row k with the times after k of them, until one raises no event or n are made; gives how many were. The rows after them stay.
// The table is a slice with its length beside it: this function is public, and [_; ROWS] would be a narrower type.
pub fn put_rounds(
    arcs: &[Edge],
    facts: &[u8],
    n: usize,
    start: [u32; EVENTS],
    t: &mut [[u32; EVENTS]],
) -> usize
    requires { Within (net arcs.now) facts.now n × (1 ≤ n) × (n ≤ most_events) × ((v : ℕ) → at start v ≤ farthest) × (length t.old ≡ most_events + 1) }
    ensures { Ended (net arcs.now) facts.now start n result t.new × Stays result t.old t.new }
{
    t[0] = start;
    for k in 0..n {
        put_round::<false>(arcs, facts, t, k);
        if rising(&t[k], &t[k + 1], n).is_none() {
            return k + 1;
        }
    }
    n
}

// The first of n events that a round raised.
pub fn rising(before: &[u32; EVENTS], after: &[u32; EVENTS], n: usize) -> Option<usize>
    requires { n ≤ most_events }
    ensures { Rising n before.now after.now result }
{
    (0..n).find(|&v| before[v] < after[v])
}
