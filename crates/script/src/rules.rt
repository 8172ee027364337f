// The alternatives and clauses read so far, as 01 has them lent.
ghost use Rattle.std.specs.Prelude.{◌≡◌, [], ◌<◌, ◌≤◌, ◌^◌};
ghost use Rattle.meaning.specs.Limits.{most_clauses, most_alternatives};
ghost use Rattle.script.specs.Notes.{RulesAre, Adds, Ends};

use problem::{ALTERNATIVES, CLAUSES};

// The numbers of all triples.
pub const NUMBERS: usize = 3 * ALTERNATIVES;

// How many alternatives were read, the triples of the first 64 of them, how many clauses, and their counts. Unused numbers are 0.
// Arrays with their lengths beside them, since memory is fixed: there is no heap.
#[derive(Clone, Copy)]
pub struct Rules {
    pub alternatives: usize,
    pub triples: [i32; NUMBERS],
    pub clauses: usize,
    pub counts: [u32; CLAUSES],
}

// No alternative and no clause.
pub fn no_rules() -> Rules
    ensures { RulesAre result [] [] × (result.alternatives ≡ 0) × (result.clauses ≡ 0) }
{
    Rules {
        alternatives: 0,
        triples: [0; NUMBERS],
        clauses: 0,
        counts: [0; CLAUSES],
    }
}

impl Rules {
    // One alternative more. One past the 64th is only counted: its assert will be refused.
    pub fn with_alternative(self, x: u8, y: u8, c: i32) -> Rules
        requires { self.alternatives < 2 ^ 63 }
        ensures { Adds self x y c result }
    {
        let mut more = self;
        let at = self.alternatives;
        more.alternatives += 1;
        if ALTERNATIVES <= at {
            return more;
        }
        more.triples[at * 3] = x as i32;
        more.triples[at * 3 + 1] = y as i32;
        more.triples[at * 3 + 2] = c;
        more
    }

    // One clause more: the alternatives since the last.
    pub fn with_clause(self) -> Rules
        requires { (self.clauses < most_clauses) × (self.alternatives ≤ most_alternatives) }
        ensures { Ends self result }
    {
        let mut more = self;
        more.counts[self.clauses] = self.alternatives as u32;
        more.clauses += 1;
        more
    }
}
