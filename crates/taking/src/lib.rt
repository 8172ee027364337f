// Positions of clauses taken on the days of facts, tables of distances in a lent slice, one for each depth: the table of a day with a position's facts,
// whether a clause is dead under a day, and whether two facts may lie on one closed walk below 0.
#![tactic(auto)]

mod table;

ghost use Rattle.std.specs.Prelude.{◌≡◌, false, List, ◌∷◌, ℕ, ◌+◌, ◌-◌, ◌*◌, ◌<◌, ◌≤◌, length};
ghost use Rattle.meaning.specs.Limits.{most_events, most_alternatives, opposite_from};
ghost use Rattle.meaning.specs.Problem.{Alternative, opposite};
ghost use Rattle.meaning.specs.Decision.{sound};
ghost use Rattle.meaning.specs.Search.{dead};
ghost use Rattle.problem.specs.Arcs.{bias, net, head, tail, bound, arc, Arc, arcs_from};
ghost use Rattle.taking.specs.Tables.{IsDay, Held, table_at, Tall};
ghost use Rattle.taking.specs.Taking.{passed, taken, Arcs, Adds, Passes, Aside};

use distances::Fact;
use problem::{ALTERNATIVES, Edge};
pub use table::begin;
use table::{TURN, extend, fits, way_through};

// The number by which an opposite follows its alternative.
const OPPOSITE_FROM: usize = ALTERNATIVES;

// Arc j as a fact.
fn fact(arcs: &[Edge], j: usize) -> Fact
    requires { (j < length arcs.now) × (bound (net arcs.now) j < 2 * bias) }
    ensures { (result.x ≡ head (net arcs.now) j) × (result.y ≡ tail (net arcs.now) j) × (result.b ≡ bound (net arcs.now) j) }
{
    Fact::of(arcs[j])
}

// Whether arc j has a timetable with the facts of the day.
fn allows<const W: usize>(day: &[[u32; W]; W], arcs: &[Edge], j: usize) -> bool
    requires { (W ≤ most_events) × Arc (net arcs.now) W j × Held W day.now }
    ensures { (fs : List Alternative) → IsDay W fs day.now → result ≡ sound (arc (net arcs.now) j ∷ fs) }
{
    fits(day, fact(arcs, j))
}

// The table at depth `to` becomes the table at depth `from` with arc j, where that has a timetable with its facts; whether it has.
fn adds<const W: usize>(
    days: &mut [[[u32; W]; W]],
    from: usize,
    to: usize,
    arcs: &[Edge],
    j: usize,
) -> bool
    requires { (W ≤ most_events) × (from < length days.old) × (to < length days.old) × Tall W days.old × Arc (net arcs.now) W j × Held W (table_at days.old from) }
    ensures { Adds W days.old days.new from to (λ fs. arc (net arcs.now) j ∷ fs) result }
{
    if !allows(&days[from], arcs, j) {
        return false;
    }
    extend(days, from, to, fact(arcs, j));
    true
}

// The opposite of alternative j is added to the table at depth `base`, which is then the one at `to`; where the alternative is unsound, its opposite
// is implied, and nothing changes. At which depth the table with the opposite lies, unless that is unsound.
fn passes<const W: usize>(
    days: &mut [[[u32; W]; W]],
    base: usize,
    to: usize,
    arcs: &[Edge],
    j: usize,
) -> Option<usize>
    requires { (W ≤ most_events) × (base < length days.old) × (to < length days.old) × Tall W days.old × Arcs (net arcs.now) W j × Held W (table_at days.old base) }
    ensures { Passes W days.old days.new base to (λ fs. arc (net arcs.now) (opposite_from + j) ∷ fs) result }
{
    if !allows(&days[base], arcs, j) {
        return Some(base);
    }
    if adds(days, base, to, arcs, OPPOSITE_FROM + j) {
        Some(to)
    } else {
        None
    }
}

// The opposites of the alternatives from number `first` up to, and without, `last` are added to the table at depth `from`. At which depth the table with
// them lies, `from` or `to`, unless one of them is unsound.
pub fn passes_all<const W: usize>(
    days: &mut [[[u32; W]; W]],
    from: usize,
    to: usize,
    arcs: &[Edge],
    first: usize,
    last: usize,
) -> Option<usize>
    requires { (W ≤ most_events) × (from < length days.old) × (to < length days.old) × Tall W days.old × (first ≤ last) × Arcs (net arcs.now) W last × Held W (table_at days.old from) }
    ensures { Passes W days.old days.new from to (passed (net arcs.now) first (last - first)) result }
{
    let mut base = from;
    for j in first..last {
        base = passes(days, base, to, arcs, j)?;
    }
    Some(base)
}

// The table at depth `to` becomes the table at depth `from` with the alternative `last` of a clause and the opposites of those before it, from `first` on,
// where they are sound; whether they are. The alternative is looked up in the table at `from` first: mostly that settles it.
pub fn takes<const W: usize>(
    days: &mut [[[u32; W]; W]],
    from: usize,
    to: usize,
    arcs: &[Edge],
    first: usize,
    last: usize,
) -> bool
    requires { (W ≤ most_events) × (from < length days.old) × (to < length days.old) × Tall W days.old × (first ≤ last) × Arcs (net arcs.now) W last × Held W (table_at days.old from) }
    ensures { Adds W days.old days.new from to (taken (net arcs.now) first last) result }
{
    if !allows(&days[from], arcs, last) {
        return false;
    }
    match passes_all(days, from, to, arcs, first, last) {
        Some(base) => adds(days, base, to, arcs, last),
        None => false,
    }
}

// Whether no arc from number `from` up to, and without, `end` has a timetable with the facts of the day. All are looked at, so that there is one branch for
// them all: a look is cheap, and what stopping at the first that has one gains did not show in time.
pub fn is_dead<const W: usize>(day: &[[u32; W]; W], arcs: &[Edge], from: usize, end: usize) -> bool
    requires { (W ≤ most_events) × (from ≤ end) × (end ≤ most_alternatives) × ((j : ℕ) → j < end → Arc (net arcs.now) W j) × Held W day.now }
    ensures { (fs : List Alternative) → IsDay W fs day.now → result ≡ dead sound fs (arcs_from (net arcs.now) from (end - from)) }
{
    let mut alive = false;
    for j in from..end {
        alive |= allows(day, arcs, j);
    }
    !alive
}

// Whether the way from arc a's head to fact j's tail, j, the way from j's head back to a's tail, and a itself sum below 0 under the day. If not, no closed walk
// below 0 that passes through a once passes through j.
pub fn closes<const W: usize>(day: &[[u32; W]; W], arcs: &[Edge], a: usize, j: usize) -> bool
    requires { (W ≤ most_events) × Arc (net arcs.now) W a × Arc (net arcs.now) W j × Held W day.now }
    ensures { (fs : List Alternative) → IsDay W fs day.now → result ≡ false → Aside (net arcs.now) fs a j }
{
    let new = fact(arcs, a);
    let old = fact(arcs, j);
    way_through(day, new.x, old, new.y) + new.b < 2 * TURN
}
