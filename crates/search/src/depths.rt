// The tables of a search, one for each depth, in one lent slice: going down to a standing, and its lowest dead clause. The table at depth i is the day of the
// facts of the standing's first i clauses.
ghost use Rattle.std.specs.Prelude.{◌≡◌, List, ◌+◌, ◌<◌, ◌≤◌};
ghost use Rattle.meaning.specs.Problem.{Alternative};
ghost use Rattle.meaning.specs.Decision.{sound};
ghost use Rattle.meaning.specs.Search.{dead};
ghost use Rattle.problem.specs.Laid.{clause_of};
ghost use Rattle.meaning.specs.Limits.{most_events};
ghost use Rattle.taking.specs.Tables.{IsDay, Held};
ghost use Rattle.search.specs.Standing.{Inside};
ghost use Rattle.search.specs.Depths.{Depths, Enters, DeadFrom};

use crate::Standing;
use problem::Problem;
use taking::{begin, is_dead, takes};

// The table at the depth of the standing s becomes the day of its facts; whether they are sound.
pub fn enters<const W: usize>(p: &Problem, s: Standing, days: &mut [[[u32; W]; W]]) -> bool
    requires { Inside p.now s.picks s.k × Depths W p.now s.picks s.k days.old }
    ensures { Enters W p.now s.picks s.k days.old days.new result }
{
    if s.k == 0 {
        begin(days);
        return true;
    }
    let above = s.k - 1;
    let first = usize::from(p.starts[above]);
    takes(
        days,
        above,
        s.k,
        &p.arcs,
        first,
        first + usize::from(s.picks[above]),
    )
}

// Whether clause d is dead under the facts of the day.
fn dead_clause<const W: usize>(p: &Problem, day: &[[u32; W]; W], d: usize) -> bool
    requires { (p.now.n ≤ W) × (W ≤ most_events) × (d < p.now.m) × Held W day.now }
    ensures { (fs : List Alternative) → IsDay W fs day.now → result ≡ dead sound fs (clause_of p.now d) }
{
    is_dead(
        day,
        &p.arcs,
        usize::from(p.starts[d]),
        usize::from(p.starts[d + 1]),
    )
}

// The lowest dead clause from clause k on under the facts of the day, if there is one.
// A loop and no `find`: the closure would be generic, and then nothing is known of it without clauses of its own, which say no more than `dead_clause`.
pub fn first_dead<const W: usize>(p: &Problem, day: &[[u32; W]; W], k: usize) -> Option<usize>
    requires { (p.now.n ≤ W) × (W ≤ most_events) × (k ≤ p.now.m) × Held W day.now }
    ensures { (fs : List Alternative) → IsDay W fs day.now → DeadFrom p.now fs k result }
{
    for d in k..p.m {
        if dead_clause(p, day, d) {
            return Some(d);
        }
    }
    None
}
