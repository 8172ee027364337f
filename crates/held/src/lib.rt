// Facts held in a buffer by value, newest first, their tests and their shortest reason.
#![tactic(auto)]

ghost use Rattle.std.specs.Prelude.{◌≡◌, true, false, [], ◌∷◌, ◌+◌, ◌≤◌, length, map, drop};
ghost use Rattle.meaning.specs.Limits.{row_bytes};
ghost use Rattle.meaning.specs.Decision.{sound};
ghost use Rattle.meaning.specs.Search.{cycle};
ghost use Rattle.meaning.specs.Listing.{row_of};
ghost use Rattle.problem.specs.Arcs.{arc, Arc};
ghost use Rattle.problem.specs.Laid.{arcs};
ghost use Rattle.facts.specs.Tests.{places, Within, Tests};

use facts::PLACES;
use problem::{EVENTS, Problem, ROW};

// Facts as arc numbers, newest first, from place `at` of the buffer on: an array with a place beside it, since memory is fixed and there is no heap.
// `Ready` is a fact of a problem and facts, and a ghost field knows its own struct alone.
#[derive(Clone, Copy)]
pub struct Facts {
    pub buffer: [u8; PLACES],
    pub at: usize,
    ghost fits: { at ≤ places },
    ghost full: { length buffer ≡ places },
}

impl Facts {
    ghost use Rattle.held.specs.Held.{held, facts_in, Ready};

    // No facts.
    pub fn none() -> Facts
        ensures { (held result ≡ []) × (result.at ≡ places) }
    {
        Facts {
            buffer: [0; PLACES],
            at: PLACES,
        }
    }

    // Arc j is put before the facts, which are lent: by value each arc moved the buffer twice (docs/DECISIONS.md, "What is put is put where it lies").
    pub fn put(&mut self, j: u8)
        requires { 1 ≤ self.old.at }
        ensures { (held self.new ≡ j ∷ held self.old) × (self.new.at + 1 ≡ self.old.at) }
    {
        self.at -= 1;
        self.buffer[self.at] = j;
    }

    // The test of the facts.
    pub fn tested(self, p: &Problem) -> Option<[u32; EVENTS]>
        requires { Ready p.now self }
        ensures { Tests (facts_in p.now self) p.now.n result }
    {
        facts::test(&p.arcs, &self.buffer[self.at..], p.n)
    }

    // The test of the facts with arc j before them.
    pub fn tested_with(self, p: &Problem, j: u8) -> Option<[u32; EVENTS]>
        requires { Ready p.now self × Arc (arcs p.now) p.now.n j }
        ensures { Tests (arc (arcs p.now) j ∷ facts_in p.now self) p.now.n result }
    {
        facts::test_with(&p.arcs, self.buffer, self.at, j, p.n)
    }

    // The shortest reason of facts that have no timetable, of which those after the `news` newest have one, as a row.
    pub fn reason(&self, p: &Problem, news: usize) -> [u8; ROW]
        requires { Within (arcs p.now) (held self.now) p.now.n × (sound (facts_in p.now self.now) ≡ false) × (news ≤ length (held self.now)) × (sound (map (arc (arcs p.now)) (drop news (held self.now))) ≡ true) }
        ensures { result ≡ row_of row_bytes (cycle (facts_in p.now self.now)) }
    {
        shortest::reason(&p.arcs, &self.buffer[self.at..], news, p.n)
    }
}
