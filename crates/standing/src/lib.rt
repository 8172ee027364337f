// The standing day of 02, A8: a day that follows the slider, one fact after another.
#![tactic(auto)]

mod adding;
mod check;
mod lying;
mod numbers;
mod reading;

pub use adding::{add_fact, fresh_day};
pub use lying::add_fact_to;
use problem::EVENTS;
pub use reading::read_day;

// The entries of a day: a row for each event that there may be.
pub const ENTRIES: usize = EVENTS * EVENTS;

// A standing day of n events: the shortest distance between every pair of them under the facts so far. Row = from, column = to;
// 2,147,483,647 stands for none, and in every entry for an event past the last.
#[derive(Clone, Copy)]
pub struct Day {
    pub n: u32,
    pub entries: [i32; ENTRIES],
}

// The refusal's number, or 0, and the day. No Result: refused, the day as it came is part of the answer, and a refusal's number is a byte.
#[derive(Clone, Copy)]
pub struct Answered {
    pub number: u8,
    pub day: Day,
}
