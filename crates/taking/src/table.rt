// The table of the day of some facts, in a slice of such tables: no facts, whether one fact more fits, and the table with it. W is how many events
// a table is for, at least as many as the problem has: with a width that is known to the compiler a row is a few registers, and no test is left.
ghost use Rattle.std.specs.Prelude.{◌≡◌, [], ◌∷◌, List, ℕ, ◌+◌, ◌-◌, ◌*◌, ◌<◌, ◌≤◌, true, length, min};
ghost use Rattle.meaning.specs.Limits.{most_events};
ghost use Rattle.meaning.specs.Problem.{Alternative};
ghost use Rattle.meaning.specs.Decision.{sound};
ghost use Rattle.problem.specs.Arcs.{at, bias, farthest};
ghost use Rattle.distances.specs.Numbers.{Stands};
ghost use Rattle.taking.specs.Tables.{level, turn, entry, Near, IsDay, Held, table_at, Tall, Beside, RowLowered};

use distances::{Fact, MIDDLE};
use problem::BIAS;

// No two events of a latest timetable lie further apart.
const FARTHEST: u32 = MIDDLE - 1;

// The number of the distance 0.
const LEVEL: u32 = 2 * FARTHEST + BIAS;

// What the sum of two distances' numbers and a bound's has too much.
pub const TURN: u32 = LEVEL + BIAS;

// The table at depth 0 becomes the day of no facts.
pub fn begin<const W: usize>(days: &mut [[[u32; W]; W]])
    requires { (0 < length days.old) × Tall W days.old }
    ensures { Beside days.old days.new 0 × IsDay W [] (table_at days.new 0) }
{
    for u in 0..W {
        let mut row = [LEVEL + FARTHEST; W];
        row[u] = LEVEL;
        days[0][u] = row;
    }
}

// Whether a new fact has a timetable with the facts of the day.
pub fn fits<const W: usize>(day: &[[u32; W]; W], fact: Fact) -> bool
    requires { (W ≤ most_events) × (fact.x < W) × (fact.y < W) × Held W day.now }
    ensures { (fs : List Alternative) (a : Alternative) → Stands fact.x fact.y fact.b a → IsDay W fs day.now → result ≡ sound (a ∷ fs) }
{
    TURN <= day[fact.x][fact.y] + fact.b
}

// What the way from u to a fact, the fact, and the way from it to v add up to, in numbers.
pub fn way_through<const W: usize>(day: &[[u32; W]; W], u: usize, fact: Fact, v: usize) -> u32
    requires { (u < W) × (v < W) × (fact.x < W) × (fact.y < W) × Held W day.now }
    ensures { (result ≡ entry day.now u fact.y + fact.b + entry day.now fact.x v) × (result < 4 * turn) }
{
    day[u][fact.y] + fact.b + day[fact.x][v]
}

// A number, or the lower one of the way that adds `way` to the number `past`.
fn lower(number: u32, way: u32, past: u32) -> u32
    requires { (turn ≤ past + way) × (past + way ≤ 4 * turn) }
    ensures { result ≡ min number (past + way - turn) }
{
    number.min(past + way - TURN)
}

// A row lowered by the row past a fact, the way to which adds so much.
fn lower_row<const W: usize>(row: [u32; W], way: u32, past: [u32; W]) -> [u32; W]
    requires { (level ≤ way + farthest) × (way ≤ level + farthest + 2 * bias) × ((v : ℕ) → v < W → Near (at past v)) }
    ensures { RowLowered W row.entry way past.entry result }
{
    let mut lowered = row;
    for v in 0..W {
        lowered[v] = lower(row[v], way, past[v]);
    }
    lowered
}

// The table at depth `to` becomes the table at depth `from` with one fact more that fits. They may be one table: the row past the fact is read before a row is written.
pub fn extend<const W: usize>(days: &mut [[[u32; W]; W]], from: usize, to: usize, fact: Fact)
    requires { (W ≤ most_events) × (from < length days.old) × (to < length days.old) × Tall W days.old × (fact.x < W) × (fact.y < W) × Held W (table_at days.old from) }
    ensures { Beside days.old days.new to × ((fs : List Alternative) (a : Alternative) → Stands fact.x fact.y fact.b a → IsDay W fs (table_at days.old from) → sound (a ∷ fs) ≡ true → IsDay W (a ∷ fs) (table_at days.new to)) }
{
    let past = days[from][fact.x];
    for u in 0..W {
        let way = days[from][u][fact.y] + fact.b;
        days[to][u] = lower_row(days[from][u], way, past);
    }
}
