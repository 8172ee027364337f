// The facts of a standing and of a selection, held in a buffer.
ghost use Rattle.std.specs.Prelude.{◌≡◌, [], ◌+◌, ◌<◌, ◌≤◌, take};
ghost use Rattle.problem.specs.Arcs.{at};
ghost use Rattle.problem.specs.Laid.{size_of};
ghost use Rattle.facts.specs.Tests.{places};
ghost use Rattle.held.specs.Held.{held};
ghost use Rattle.search.specs.Standing.{takes, standing_facts, chosen_facts, Inside};

use crate::Standing;
use held::Facts;
use problem::{ALTERNATIVES, CLAUSES, Problem};

// The number by which an opposite follows its alternative.
const OPPOSITE_FROM: u8 = ALTERNATIVES as u8;

// The facts of position `pick` of clause k are put before those of f.
fn put_position(p: &Problem, f: &mut Facts, k: usize, pick: u8)
    requires { (k < p.now.m) × (pick < size_of p.now k) × (places ≤ f.old.at + at p.now.starts k) }
    ensures { (held f.new ≡ takes (at p.now.starts k) pick (held f.old)) × (f.new.at + pick + 1 ≡ f.old.at) }
{
    let first = p.starts[k];
    let last = first + pick;
    for j in first..last {
        f.put(OPPOSITE_FROM + j);
    }
    f.put(last)
}

// The facts of a standing.
pub fn facts_of(p: &Problem, s: Standing) -> Facts
    requires { Inside p.now s.picks s.k }
    ensures { (held result ≡ standing_facts p.now.starts 0 (take s.k s.picks) []) × (places ≤ result.at + at p.now.starts s.k) }
{
    let mut f = Facts::none();
    for c in 0..s.k {
        put_position(p, &mut f, c, s.picks[c]);
    }
    f
}

// The alternatives of the selection of the picks, as facts.
pub fn chosen_of(p: &Problem, picks: [u8; CLAUSES]) -> Facts
    requires { Inside p.now picks p.now.m }
    ensures { (held result ≡ chosen_facts p.now.starts 0 (take p.now.m picks)) × (result.at + p.now.m ≡ places) }
{
    let mut f = Facts::none();
    for i in (0..p.m).rev() {
        f.put(p.starts[i] + picks[i]);
    }
    f
}
