// Words and numbers in lent text: those of a line read, and bytes and numbers written into a buffer.
// A line is words parted by single spaces, with none at either end; a word holds at least one byte.
#![tactic(auto)]

mod bits;
mod reading;
mod writing;

pub use bits::float_of;
pub use reading::{
    Spelled, next_at, number_at, read_list, signed_at, signed_of, unsigned_of, until,
};
pub use writing::{Decimal, Writer};
