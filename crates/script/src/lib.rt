// Scripts of the subset of SMT-LIB 2 of request A1: read where they lie, into a problem as `plan` takes it, and written into lent room.
#![tactic(auto)]

ghost use Rattle.std.specs.Prelude.{◌≡◌, ◌≤◌};
ghost use Rattle.meaning.specs.Limits.{most_alternatives, most_clauses};
ghost use Rattle.script.specs.Reading.{placeless};
ghost use Rattle.script.specs.Script.{lent_in};

mod names;
mod plain;
mod reader;
mod reading;
mod rules;
mod text;
mod writing;

use meaning::Refusal;
pub use reader::{Reader, begun, read, read_script};
pub use rules::Rules;
pub use writing::{LONGEST_TEXT, write_script};

// The most bytes of a script that a program reads.
pub const BYTES: usize = 65536;

// What a script says: how many events, and the alternatives and clauses over them.
#[derive(Clone, Copy)]
pub struct Script {
    pub n: u32,
    pub rules: Rules,
}

// What the two ask is no ghost field: `Script.told` makes a Script of whatever was read, and of a whole script `script-within` gives it.
impl Script {
    // The triples of its alternatives.
    pub fn triples(&self) -> &[i32]
        requires { self.now.rules.alternatives ≤ most_alternatives }
        ensures { result.now ≡ (lent_in self.now).triples }
    {
        &self.rules.triples[..3 * self.rules.alternatives]
    }

    // The counts of its clauses.
    pub fn counts(&self) -> &[u32]
        requires { self.now.rules.clauses ≤ most_clauses }
        ensures { result.now ≡ (lent_in self.now).counts }
    {
        &self.rules.counts[..self.rules.clauses]
    }
}

// Why a script is refused, and the place of the byte where it is; only a text that does not go on has a place, and the others 0,
// no Option, as `Script.told` and `refusal-placed` (proofs/Faults) have it.
#[derive(Clone, Copy, PartialEq, Eq)]
pub struct Refused {
    pub refusal: Refusal,
    pub place: usize,
}

// A refusal without a place.
impl From<Refusal> for Refused {
    ghost from_gives = { λ refusal r. r ≡ placeless refusal };

    fn from(refusal: Refusal) -> Refused {
        Refused { refusal, place: 0 }
    }
}
