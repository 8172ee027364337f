// The door: a day's signed entries as the numbers that `distances` works with, and back.
ghost use Rattle.std.specs.Prelude.{◌≡◌, ℕ, ◌*◌, ◌<◌, ◌≤◌};
ghost use Rattle.meaning.specs.Limits.{most_events};
ghost use Rattle.distances.specs.Numbers.{distance};
ghost use Rattle.problem.specs.Arcs.{at};
ghost use Rattle.standing.specs.Entries.{said, entry_of, list_of};
ghost use Rattle.standing.specs.Numbers.{number_of, Numbered};

use super::ENTRIES;
use distances::{Grid, MIDDLE, NO_WAY};
use problem::EVENTS;

// The entry that stands for none: A8's own number, so no Option.
const NO_ENTRY: i32 = 2147483647;

// The longest distance.
const FARTHEST: u32 = MIDDLE - 1;

// Where the numbers of a day of n events lie.
pub fn grid(n: usize) -> Grid
    requires { n ≤ most_events }
    ensures { (result.base ≡ 0) × (result.w ≡ most_events) × (result.n ≡ n) }
{
    Grid {
        base: 0,
        w: EVENTS,
        n,
    }
}

// The number of an entry; of one out of range 0, which is out of range too (docs/DECISIONS.md, "16 is one test over numbers").
fn number_of(z: i32) -> u32
    ensures { result ≡ number_of (said z) }
{
    if z == NO_ENTRY {
        return NO_WAY;
    }
    if FARTHEST < z.unsigned_abs() {
        return 0;
    }
    lent::lifted(z, MIDDLE)
}

// The numbers of a day's entries.
pub fn numbers_of(entries: &[i32; ENTRIES]) -> [u32; ENTRIES]
    ensures { Numbered entries.now result }
{
    entries.map(number_of)
}

// The entry of a number.
fn entry_of(e: u32) -> i32
    ensures { result ≡ entry_of (distance e) }
{
    if NO_WAY <= e {
        NO_ENTRY
    } else {
        lent::lowered(e, MIDDLE)
    }
}

// The entries of a day's numbers.
pub fn entries_of(numbers: &[u32; ENTRIES]) -> [i32; ENTRIES]
    ensures { result ≡ list_of (most_events * most_events) (λ (k : ℕ). entry_of (distance (at numbers.now k))) }
{
    numbers.map(entry_of)
}
