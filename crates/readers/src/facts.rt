// The facts of a standing that is read. Not `held`'s: the readers share no code with the search (docs/DECISIONS.md).
ghost use Rattle.std.specs.Prelude.{◌≡◌, [], ◌∷◌, ◌+◌, ◌≤◌};
ghost use Rattle.problem.specs.Arcs.{places};

use problem::ALTERNATIVES;

// How many numbers the buffer of a standing's facts holds.
const PLACES: usize = ALTERNATIVES + 1;

// The facts as the numbers of their arcs, the newest first, from a place of the buffer on. An array with its place beside it: there is no heap.
#[derive(Clone, Copy)]
pub struct Facts {
    buffer: [u8; PLACES],
    from: usize,
    ghost within: { from ≤ places },
}

impl Facts {
    ghost use Rattle.readers.specs.Standing.{held};

    // No facts.
    pub fn none() -> Facts
        ensures { (held result ≡ []) × (result.from ≡ places) }
    {
        Facts {
            buffer: [0; PLACES],
            from: PLACES,
        }
    }

    // The facts with arc j before them.
    pub fn with(mut self, j: u8) -> Facts
        requires { 1 ≤ self.from }
        ensures { (held result ≡ j ∷ held self) × (result.from + 1 ≡ self.from) }
    {
        self.from -= 1;
        self.buffer[self.from] = j;
        self
    }

    // The numbers of the arcs.
    pub fn numbers(&self) -> &[u8]
        ensures { result.now ≡ held self.now }
    {
        &self.buffer[self.from..]
    }
}
