// The subset of SMT-LIB 2 that is read, as a grammar over bytes (specs), and the automaton that goes along a text by it.
#![tactic(auto)]

mod automaton;
mod pieces;
mod role;

pub use automaton::{Transitions, table};
pub use pieces::{Part, START, piece_at};
pub use role::Role;
