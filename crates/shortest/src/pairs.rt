// The shortest reason where it has two facts: the newest one, without which the others have a timetable, and one that leads from its head back to its tail.
ghost use Rattle.std.specs.Prelude.{◌≡◌, ◌↔◌, IsTrue, true, false, map, drop, ℕ, ◌+◌, ◌*◌, ◌≤◌, ◌<◌, length};
ghost use Rattle.meaning.specs.Limits.{most_events};
ghost use Rattle.meaning.specs.Decision.{sound};
ghost use Rattle.problem.specs.Arcs.{net, arc, Arc};
ghost use Rattle.facts.specs.Tests.{Within};
ghost use Rattle.shortest.specs.Pairs.{LeadsBack, WayBack, Pairs};

use crate::BLANK;
use problem::{BIAS, Edge, ROW};

// Whether arc j leads from the head of arc a back to its tail, and the two have a sum below 0.
fn leads_back(arcs: &[Edge], a: u8, j: u8) -> bool
    requires { Arc (net arcs.now) most_events a × Arc (net arcs.now) most_events j }
    ensures { IsTrue result ↔ LeadsBack (net arcs.now) a j }
{
    let there = &arcs[usize::from(a)];
    let back = &arcs[usize::from(j)];
    back.y == there.x && back.x == there.y && there.b + back.b < 2 * BIAS
}

// The smallest number of a fact that leads from the head of arc a back to its tail.
fn way_back(arcs: &[Edge], facts: &[u8], a: u8) -> Option<u8>
    requires { Within (net arcs.now) facts.now most_events × Arc (net arcs.now) most_events a }
    ensures { WayBack (net arcs.now) facts.now a result }
{
    let mut best: Option<u8> = None;
    for &j in facts {
        if leads_back(arcs, a, j) && best.is_none_or(|b| j < b) {
            best = Some(j);
        }
    }
    best
}

// The row of the newest fact and the smallest-numbered that leads back, the smaller number first. An arc from an event to itself may be a reason alone, so none is given for it.
pub fn pair(arcs: &[Edge], facts: &[u8]) -> Option<[u8; ROW]>
    requires { Within (net arcs.now) facts.now most_events × (sound (map (arc (net arcs.now)) facts.now) ≡ false) × (1 ≤ length facts.now) × (sound (map (arc (net arcs.now)) (drop 1 facts.now)) ≡ true) }
    ensures { Pairs (net arcs.now) facts.now result }
{
    let a = facts[0];
    let there = &arcs[usize::from(a)];
    if there.x == there.y {
        return None;
    }
    let back = way_back(arcs, facts, a)?;
    let mut row = [BLANK; ROW];
    row[0] = a.min(back);
    row[1] = a.max(back);
    Some(row)
}
