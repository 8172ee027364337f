// A checked problem, in the numbers that the tests use, and the limits that it keeps: from lent slices, or why they are refused.
#![tactic(auto)]

mod loading;
mod refusing;

ghost use Rattle.problem.specs.Layout.{Layout};

pub use loading::check;
pub use refusing::refusal;

// The limits of 01, "What the table is given", with as many events as A4 has.
pub const EVENTS: usize = 24;

pub const CLAUSES: usize = 32;

pub const IN_CLAUSE: usize = 4;

pub const ALTERNATIVES: usize = 64;

pub const BOUND: i32 = 100000;

// The bytes of a row of reasons: a cycle has no more arcs than there are events.
pub const ROW: usize = EVENTS;

// The widths of a problem's arrays: a start past the last clause, and an opposite for each alternative.
pub const STARTS: usize = CLAUSES + 1;

pub const ARCS: usize = ALTERNATIVES + ALTERNATIVES;

// What is added to a bound, and what a bound and its opposite's add up to.
pub const BIAS: u32 = 100001;

pub const TURN: u32 = 200001;

// An arc: from event y to event x, its bound with the bias added.
#[derive(Clone, Copy)]
pub struct Edge {
    pub x: u8,
    pub y: u8,
    pub b: u32,
}

// A problem of n events and m clauses. Clause k holds alternatives starts[k] to starts[k + 1]; arc j is alternative j and arc 64 + j its
// opposite. Unused elements are 0.
// The arrays stand with their sizes beside them, since memory is fixed and there is no heap.
#[derive(Clone, Copy)]
pub struct Problem {
    pub n: usize,
    pub m: usize,
    pub starts: [u8; STARTS],
    pub arcs: [Edge; ARCS],
    ghost laid: { Layout n m starts arcs },
}
