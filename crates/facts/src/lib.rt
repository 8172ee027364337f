// The test of a set of facts, by rounds from an extra source (001): whether they are sound, and the latest timetable.
// Arcs come in a slice by their numbers, facts as arc numbers; times are minutes before closing.
// No struct holds arcs and facts with `Within`: it would be two references and a number, and the rounds ask the same facts within n and within `most_events`, so it would be no plainer.
#![tactic(auto)]

pub mod rounds;

ghost use Rattle.std.specs.Prelude.{ℕ, ◌≤◌, ◌∷◌, map, drop};
ghost use Rattle.meaning.specs.Limits.{most_events};
ghost use Rattle.problem.specs.Arcs.{at, net, arc, Arc};
ghost use Rattle.facts.specs.Tests.{farthest, places, Within, Tests};
ghost use Rattle.facts.specs.Rounds.{Under, TestsFrom};

use problem::{ALTERNATIVES, EVENTS, Edge};
use rounds::{ROWS, put_rounds, rising};

// The places of a buffer of facts: one for each alternative or its opposite, and one for an arc that is tested with them.
pub const PLACES: usize = ALTERNATIVES + 1;

// The test from times that lie under every timetable of the facts.
fn test_from(arcs: &[Edge], facts: &[u8], n: usize, start: [u32; EVENTS]) -> Option<[u32; EVENTS]>
    requires { Within (net arcs.now) facts.now n × (1 ≤ n) × (n ≤ most_events) × ((v : ℕ) → at start v ≤ farthest) × Under (net arcs.now) facts.now start }
    ensures { TestsFrom (net arcs.now) facts.now start n result }
{
    let mut t = [[0; EVENTS]; ROWS];
    let k = put_rounds(arcs, facts, n, start, &mut t);
    match rising(&t[k - 1], &t[k], n) {
        Some(_) => None,
        None => Some(t[k - 1]),
    }
}

// The test of a set of facts: the latest timetable, in minutes before closing, if they are sound.
pub fn test(arcs: &[Edge], facts: &[u8], n: usize) -> Option<[u32; EVENTS]>
    requires { Within (net arcs.now) facts.now n × (1 ≤ n) × (n ≤ most_events) }
    ensures { Tests (map (arc (net arcs.now)) facts.now) n result }
{
    test_from(arcs, facts, n, [0; EVENTS])
}

// The test of the facts from place `at` of the buffer on, with arc j before them.
// The buffer comes by value with its place beside it: there is no heap, and the caller's stays as it is. Not a method of `held::Facts`: docs/CLAIMS.md names it here.
pub fn test_with(
    arcs: &[Edge],
    buffer: [u8; PLACES],
    at: usize,
    j: u8,
    n: usize,
) -> Option<[u32; EVENTS]>
    requires { Within (net arcs.now) (drop at buffer) n × Arc (net arcs.now) n j × (1 ≤ at) × (at ≤ places) × (1 ≤ n) × (n ≤ most_events) }
    ensures { Tests (arc (net arcs.now) j ∷ map (arc (net arcs.now)) (drop at buffer)) n result }
{
    let mut all = buffer;
    let first = at - 1;
    all[first] = j;
    test(arcs, &all[first..], n)
}
