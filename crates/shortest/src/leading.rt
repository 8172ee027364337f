// The first row from an event: at each step the smallest number of a fact from which the row can still be closed, by the heights above the event.
ghost use Rattle.std.specs.Prelude.{◌≡◌, ◌↔◌, IsTrue, ℕ, ◌+◌, ◌*◌, ◌≤◌, ◌<◌, length};
ghost use Rattle.meaning.specs.Limits.{most_events};
ghost use Rattle.problem.specs.Arcs.{at, net, Arc};
ghost use Rattle.facts.specs.Tests.{Within};
ghost use Rattle.shortest.specs.Heights.{peak, Lifts};
ghost use Rattle.shortest.specs.Leading.{Leads, Picks, Lowest, RowFrom};

use crate::BLANK;
use crate::heights::HIGHEST;
use facts::rounds::ROWS;
use problem::{BIAS, EVENTS, Edge, ROW};

// Whether arc j leads on from u to an event that lies higher than what is needed.
fn leads(arcs: &[Edge], j: u8, u: usize, need: u32, heights: &[u32; EVENTS]) -> bool
    requires { Arc (net arcs.now) most_events j × ((v : ℕ) → at heights.now v ≤ peak) × (need ≤ peak) }
    ensures { IsTrue result ↔ Leads (net arcs.now) heights.now u need j }
{
    let arc = &arcs[usize::from(j)];
    usize::from(arc.y) == u && need + arc.b < heights[usize::from(arc.x)] + BIAS
}

// The smallest number of a fact that leads on from u.
// Tried: filter and min. The two goals that they leave open need `Leads` as a test and a law of the least of a filtered list; the loop needs its invariant alone.
fn next_arc(arcs: &[Edge], facts: &[u8], u: usize, need: u32, heights: &[u32; EVENTS]) -> Option<u8>
    requires { Within (net arcs.now) facts.now most_events × ((v : ℕ) → at heights.now v ≤ peak) × (need ≤ peak) }
    ensures { Picks (net arcs.now) facts.now heights.now u need result }
{
    let mut best: Option<u8> = None;
    for &j in facts {
        if leads(arcs, j, u, need, heights) && best.is_none_or(|b| j < b) {
            best = Some(j);
        }
    }
    best
}

// The smallest number of a fact from event t, which no row from t starts below.
pub fn lowest(arcs: &[Edge], facts: &[u8], t: usize) -> Option<u8>
    requires { Within (net arcs.now) facts.now most_events }
    ensures { Lowest (net arcs.now) facts.now t result }
{
    let mut low: Option<u8> = None;
    for &j in facts {
        if usize::from(arcs[usize::from(j)].y) == t && low.is_none_or(|b| j < b) {
            low = Some(j);
        }
    }
    low
}

// The first closed row of `size` facts from t, by the rounds to t up to the first that lifts it.
pub fn first_from(
    arcs: &[Edge],
    facts: &[u8],
    tab: &[[u32; EVENTS]; ROWS],
    t: usize,
    size: usize,
) -> [u8; ROW]
    requires { Within (net arcs.now) facts.now most_events × (t < most_events) × (size ≤ most_events) × Lifts (net arcs.now) facts.now t size tab.now }
    ensures { RowFrom (net arcs.now) facts.now t size result }
{
    let mut out = [BLANK; ROW];
    let mut u = t;
    let mut need = HIGHEST;
    for i in 0..size {
        let left = size - i - 1;
        let j = next_arc(arcs, facts, u, need, &tab[left]).unwrap();
        let arc = &arcs[usize::from(j)];
        out[i] = j;
        u = usize::from(arc.x);
        need = need + arc.b - BIAS;
    }
    out
}
