// The quick search as a step over a place and over the tables of its depths, run until it ends.
#![tactic(auto)]

mod depths;
mod listing;
mod narrowing;
mod places;
mod taken;

ghost use Rattle.std.specs.Prelude.{◌≡◌, ◌+◌, ◌<◌, ◌≤◌, length, replicate};
ghost use Rattle.meaning.specs.Limits.{most_events, most_allowance, blank_byte};
ghost use Rattle.search.specs.Standing.{Inside};
ghost use Rattle.search.specs.Depths.{Roomy, Depths, Stacked};
ghost use Rattle.search.specs.Steps.{Leaves, Fine, Steps, Runs, Left};

use depths::{enters, first_dead};
use listing::{mark_row, put_cycles, put_row, put_unsound};
use places::advance;
pub use places::{rank_of, under};
use problem::{CLAUSES, EVENTS, Problem, ROW};
use std::ops::ControlFlow;
pub use taken::chosen_of;

// A standing: its positions are the first k picks, an array with its length beside it, since memory is fixed and there is no heap.
// `Inside` is a fact of a problem and a standing, and a ghost field knows its own struct alone.
#[derive(Clone, Copy)]
pub struct Standing {
    pub picks: [u8; CLAUSES],
    pub k: usize,
}

// A place of the search: the standing to come to next, the visits made, and the rows so far.
#[derive(Clone, Copy)]
pub struct Place {
    pub standing: Standing,
    pub visits: u64,
    pub rows: usize,
}

// How the search ends: a plan is found, all is closed, or the allowance is spent.
#[derive(Clone, Copy)]
pub enum End {
    Plan(Place),
    Closed(Place),
    Stop(Place),
}

// The first byte of a mark row: the search goes on to the next clause, or a clause is dead.
const ONWARD: u8 = 240;

const DEAD: u8 = 200;

// The tables of a search: one for no clause and one for each.
const TABLES: usize = CLAUSES + 1;

// The place after the standing of s is closed.
fn leave(p: &Problem, s: Place) -> ControlFlow<End, Place>
    requires { Inside p.now s.standing.picks s.standing.k }
    ensures { Leaves p.now s result }
{
    match advance(p, s.standing) {
        Some(standing) => ControlFlow::Continue(Place { standing, ..s }),
        None => ControlFlow::Break(End::Closed(s)),
    }
}

// A visit of a sound standing short of the last clause, whose day is the table at its depth: closed by its lowest dead clause, or left for position 0 of the next
// clause. Of the allowance the contract alone speaks.
fn visit<const W: usize>(
    p: &Problem,
    allowance: u64,
    s: Place,
    days: &[[[u32; W]; W]],
    reasons: &mut [u8],
) -> ControlFlow<End, Place>
    requires { Fine p.now allowance s × (allowance ≤ most_allowance) × (s.visits < allowance) × (s.standing.k < p.now.m) × Depths W p.now s.standing.picks (s.standing.k + 1) days.now }
    ensures { Steps p.now allowance s reasons.old result reasons.new × Stacked W p.now result days.now }
{
    let visits = s.visits + 1;
    let day = &days[s.standing.k];
    if let Some(d) = first_dead(p, day, s.standing.k) {
        put_row(reasons, s.rows, mark_row(DEAD + d as u8));
        let rows = put_cycles(p, s.standing, d, day, reasons, s.rows + 1);
        return leave(p, Place { visits, rows, ..s });
    }
    put_row(reasons, s.rows, mark_row(ONWARD));
    let mut standing = s.standing;
    standing.picks[standing.k] = 0;
    standing.k += 1;
    let rows = s.rows + 1;
    ControlFlow::Continue(Place {
        standing,
        visits,
        rows,
    })
}

// One step of the search: the standing of s is closed, visited, found whole, or stopped at. Only the table at its depth is written.
pub fn step<const W: usize>(
    p: &Problem,
    allowance: u64,
    s: Place,
    days: &mut [[[u32; W]; W]],
    reasons: &mut [u8],
) -> ControlFlow<End, Place>
    requires { Fine p.now allowance s × (allowance ≤ most_allowance) × Depths W p.now s.standing.picks s.standing.k days.old }
    ensures { Steps p.now allowance s reasons.old result reasons.new × Stacked W p.now result days.new }
{
    if !enters(p, s.standing, days) {
        put_unsound(p, s.standing, days, reasons, s.rows);
        let rows = s.rows + 1;
        return leave(p, Place { rows, ..s });
    }
    if allowance <= s.visits {
        return ControlFlow::Break(End::Stop(s));
    }
    if s.standing.k == p.m {
        let visits = s.visits + 1;
        return ControlFlow::Break(End::Plan(Place { visits, ..s }));
    }
    visit(p, allowance, s, days, reasons)
}

// The whole search over tables that are lent: steps from the start until it ends.
fn run_over<const W: usize>(
    p: &Problem,
    allowance: u64,
    days: &mut [[[u32; W]; W]],
    reasons: &mut [u8],
) -> End
    requires { (allowance ≤ most_allowance) × Roomy W p.now days.old × (reasons.old ≡ replicate (length reasons.old) blank_byte) }
    ensures { Runs p.now allowance reasons.old result reasons.new × Roomy W p.now days.new }
{
    let mut s = Place {
        standing: Standing {
            picks: [0; CLAUSES],
            k: 0,
        },
        visits: 0,
        rows: 0,
    };
    loop {
        match step(p, allowance, s, days, reasons) {
            ControlFlow::Continue(t) => s = t,
            ControlFlow::Break(end) => return end,
        }
    }
}

// The whole search, with tables of its own for W events: rows are worked out only in a second run, where the first has ended without a plan and all its rows fit.
fn run_wide<const W: usize>(p: &Problem, allowance: u64, reasons: &mut [u8]) -> End
    requires { (allowance ≤ most_allowance) × (p.now.n ≤ W) × (W ≤ most_events) × (reasons.old ≡ replicate (length reasons.old) blank_byte) }
    ensures { Runs p.now allowance reasons.old result reasons.new × Left result reasons.old reasons.new }
{
    let mut days = [[[0; W]; W]; TABLES];
    let end = run_over(p, allowance, &mut days, &mut reasons[..0]);
    if let End::Closed(s) = end
        && s.rows * ROW <= reasons.len()
    {
        return run_over(p, allowance, &mut days, reasons);
    }
    end
}

// The whole search. A local array is cleared at each call, and a row of a table is read and written whole: so there are tables of four widths.
pub fn run(p: &Problem, allowance: u64, reasons: &mut [u8]) -> End
    requires { (allowance ≤ most_allowance) × (reasons.old ≡ replicate (length reasons.old) blank_byte) }
    ensures { Runs p.now allowance reasons.old result reasons.new × Left result reasons.old reasons.new }
{
    match p.n {
        0..=8 => run_wide::<8>(p, allowance, reasons),
        9..=12 => run_wide::<12>(p, allowance, reasons),
        13..=16 => run_wide::<16>(p, allowance, reasons),
        _ => run_wide::<EVENTS>(p, allowance, reasons),
    }
}
