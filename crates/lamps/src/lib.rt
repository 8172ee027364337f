// The lamp panel: 01, "Lamps and sliders", its first paragraph.
#![tactic(auto)]

ghost use Rattle.std.specs.Prelude.{◌≡◌, ◌++◌, map, ◌-◌, ◌≤◌, replicate};
ghost use Rattle.meaning.specs.Limits.{most_clauses, most_in_clause, most_alternatives};
ghost use Rattle.meaning.specs.Refusal.{number_of};
ghost use Rattle.meaning.specs.Lamps.{forced, bits, ones, lit, panel_of, dark, panel};
ghost use Rattle.problem.specs.Laid.{clauses_in};
ghost use Rattle.problem.specs.Reads.{given};
ghost use Rattle.held.specs.Held.{facts_in, Ready};
ghost use Rattle.lamps.specs.Masks.{lamps_in, mask};

use held::Facts;
use meaning::{Panel, Refusal};
use problem::{CLAUSES, Problem};

// What stands for the first lit lamp where none is lit: 01's own number, which the panel shows.
const NO_LAMP: u32 = 64;

// All alternatives of one-alternative clauses, in order.
fn forced_facts(p: &Problem) -> Facts
    ensures { Ready p.now result × (facts_in p.now result ≡ forced (clauses_in p.now)) }
{
    let mut f = Facts::none();
    for k in (0..p.m).rev() {
        let from = p.starts[k];
        if p.starts[k + 1] - from == 1 {
            f.put(from);
        }
    }
    f
}

// The lit lamps as a set: lamp j by bit j.
fn lit_set(p: &Problem, f: Facts) -> u64
    requires { Ready p.now f × (facts_in p.now f ≡ forced (clauses_in p.now)) }
    ensures { result ≡ bits (lamps_in p.now) }
{
    let mut set = 0u64;
    for j in 0..p.starts[p.m] {
        if f.tested_with(p, j).is_some() {
            set |= 1 << j;
        }
    }
    set
}

// The mask of the bits of a clause: from its first up to, and without, the next clause's.
fn mask_of(from: u8, end: u8) -> u64
    requires { (from ≤ end) × (end - from ≤ most_in_clause) × (end ≤ most_alternatives) }
    ensures { result ≡ mask from end }
{
    if from == end {
        return 0;
    }
    ((1u64 << (end - from)) - 1) << from
}

// How many lamps of each clause are lit, 0 past the last clause.
fn counts_of(p: &Problem, set: u64) -> [u32; CLAUSES]
    requires { set ≡ bits (lamps_in p.now) }
    ensures { result ≡ map ones (lit (clauses_in p.now)) ++ replicate (most_clauses - p.now.m) 0 }
{
    let mut each = [0; CLAUSES];
    for k in 0..p.m {
        let mask = mask_of(p.starts[k], p.starts[k + 1]);
        each[k] = (set & mask).count_ones();
    }
    each
}

// The panel of a checked problem.
fn panel_of(p: &Problem) -> Panel
    ensures { result ≡ panel_of (lit (clauses_in p.now)) }
{
    let lit = lit_set(p, forced_facts(p));
    Panel {
        number: 0,
        lit,
        total: lit.count_ones(),
        each: counts_of(p, lit),
        first: lit.trailing_zeros(),
    }
}

// The panel of a refused problem: no lamp lit.
fn dark_panel(refusal: Refusal) -> Panel
    ensures { result ≡ dark (number_of refusal) }
{
    Panel {
        number: u8::from(refusal),
        lit: 0,
        total: 0,
        each: [0; CLAUSES],
        first: NO_LAMP,
    }
}

// The lamp panel of the problem that is lent, or the number that refuses it.
pub fn lamps(n: u32, triples: &[i32], counts: &[u32]) -> Panel
    ensures { result ≡ panel (given n triples.now counts.now) }
{
    match problem::check(n, triples, counts) {
        Ok(p) => panel_of(&p),
        Err(refusal) => dark_panel(refusal),
    }
}
