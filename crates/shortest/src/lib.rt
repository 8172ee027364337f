// The shortest reason of facts that have no timetable, as a cycle row names it (02, A7): of the closed rows of facts with a sum below 0 one with the fewest arcs, and of those the first in dictionary order.
// How many arcs that is, the newest facts tell, without which the others have a timetable. It is then the best of the first rows of so many arcs from each event.
// Arcs come in a slice by their numbers, facts as arc numbers.
#![tactic(auto)]

mod heights;
mod leading;
mod pairs;

ghost use Rattle.std.specs.Prelude.{◌≡◌, ◌↔◌, IsTrue, true, false, map, drop, ℕ, ◌+◌, ◌*◌, ◌≤◌, ◌<◌, length};
ghost use Rattle.meaning.specs.Limits.{most_events, row_bytes};
ghost use Rattle.meaning.specs.Decision.{sound};
ghost use Rattle.meaning.specs.Search.{cycle};
ghost use Rattle.meaning.specs.Listing.{row_of};
ghost use Rattle.problem.specs.Arcs.{net, arc};
ghost use Rattle.facts.specs.Tests.{Within};
ghost use Rattle.shortest.specs.Paths.{Fewest};
ghost use Rattle.shortest.specs.Best.{Looks, GoesBefore};

use facts::rounds::ROWS;
use heights::rounds_to;
use leading::{first_from, lowest};
use pairs::pair;
use problem::{EVENTS, Edge, ROW};

// What fills a row after its numbers.
pub const BLANK: u8 = 255;

// The fewest facts of a closed row: each passes through one of the first `news` facts, so the rounds to their tails tell, and look for fewer than were found so far. The table is written over.
fn fewest(
    arcs: &[Edge],
    facts: &[u8],
    news: usize,
    n: usize,
    tab: &mut [[u32; EVENTS]; ROWS],
) -> usize
    requires { Within (net arcs.now) facts.now n × (n ≤ most_events) × (sound (map (arc (net arcs.now)) facts.now) ≡ false) × (news ≤ length facts.now) × (sound (map (arc (net arcs.now)) (drop news facts.now)) ≡ true) }
    ensures { Fewest (net arcs.now) facts.now result × (result ≤ n) }
{
    let mut size = n + 1;
    for &j in &facts[..news] {
        let t = usize::from(arcs[usize::from(j)].y);
        size = rounds_to(arcs, facts, t, size - 1, tab).unwrap_or(size);
    }
    size
}

// The first row of `size` facts from event t, where no closed row has fewer. The table is written over.
fn look(
    arcs: &[Edge],
    facts: &[u8],
    t: usize,
    size: usize,
    tab: &mut [[u32; EVENTS]; ROWS],
) -> Option<[u8; ROW]>
    requires { Within (net arcs.now) facts.now most_events × (t < most_events) × (size ≤ most_events) × Fewest (net arcs.now) facts.now size }
    ensures { Looks (net arcs.now) facts.now t size result }
{
    let rounds = rounds_to(arcs, facts, t, size, tab)?;
    Some(first_from(arcs, facts, tab, t, rounds))
}

// Whether a row that starts with this number goes before the best so far, of as many numbers.
fn goes_before(first: u8, best: Option<[u8; ROW]>) -> bool
    ensures { IsTrue result ↔ GoesBefore first best }
{
    match best {
        Some(row) => first < row[0],
        None => true,
    }
}

// The row of the shortest reason by rounds alone. An event is passed over where no row from it could start with a smaller number than the best so far.
fn by_rounds(arcs: &[Edge], facts: &[u8], news: usize, n: usize) -> [u8; ROW]
    requires { Within (net arcs.now) facts.now n × (n ≤ most_events) × (sound (map (arc (net arcs.now)) facts.now) ≡ false) × (news ≤ length facts.now) × (sound (map (arc (net arcs.now)) (drop news facts.now)) ≡ true) }
    ensures { result ≡ row_of row_bytes (cycle (map (arc (net arcs.now)) facts.now)) }
{
    let mut tab = [[0; EVENTS]; ROWS];
    let size = fewest(arcs, facts, news, n, &mut tab);
    let mut best: Option<[u8; ROW]> = None;
    for t in 0..n {
        if lowest(arcs, facts, t).is_some_and(|low| goes_before(low, best)) {
            if let Some(new) = look(arcs, facts, t, size, &mut tab) {
                if goes_before(new[0], best) {
                    best = Some(new);
                }
            }
        }
    }
    best.unwrap()
}

// The row of the shortest reason of facts that have no timetable, of which those after the first `news` have one.
// Where one is new the reason may have two facts, and then needs no rounds.
pub fn reason(arcs: &[Edge], facts: &[u8], news: usize, n: usize) -> [u8; ROW]
    requires { Within (net arcs.now) facts.now n × (n ≤ most_events) × (sound (map (arc (net arcs.now)) facts.now) ≡ false) × (news ≤ length facts.now) × (sound (map (arc (net arcs.now)) (drop news facts.now)) ≡ true) }
    ensures { result ≡ row_of row_bytes (cycle (map (arc (net arcs.now)) facts.now)) }
{
    if news == 1 {
        if let Some(row) = pair(arcs, facts) {
            return row;
        }
    }
    by_rounds(arcs, facts, news, n)
}
