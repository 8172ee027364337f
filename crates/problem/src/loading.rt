// An accepted problem, in arrays of its own, from the lent slices.
ghost use Rattle.std.specs.Prelude.{◌≡◌, ◌∷◌, ℕ, suc, ◌<◌, ◌≤◌, pos, nat_abs, length, get_or, IfOk};
ghost use Rattle.meaning.specs.Limits.{most_events, most_clauses, most_alternatives};
ghost use Rattle.meaning.specs.Refusal.{told_as};
ghost use Rattle.meaning.specs.Screen.{alternatives, problem_refusal};
ghost use Rattle.problem.specs.Reads.{given, Reads};
ghost use Rattle.problem.specs.Loaded.{placed, edges_of, Loadable, IsLoaded};

use crate::refusing::refusal;
use crate::{ALTERNATIVES, ARCS, BIAS, Edge, Problem, STARTS, TURN};
use meaning::Refusal;

// 0 and then the counts, and 0 in the places left.
fn starts_of(counts: &[u32]) -> [u8; STARTS]
    requires { (length counts.now ≤ most_clauses) × ((k : ℕ) → k < length counts.now → get_or counts.now k 0 ≤ most_alternatives) }
    ensures { result ≡ placed 0 (suc most_clauses) (0 ∷ counts.now) }
{
    let mut starts = [0u8; STARTS];
    // By an index: `starts[1..].iter_mut().zip(counts)` was tried, and does not prove: a proof then knows the length, and no element.
    for (k, &end) in counts.iter().enumerate() {
        starts[k + 1] = end as u8;
    }
    starts
}

// An event number as a byte.
fn event(x: i32) -> u8
    requires { (k : ℕ) × ((x ≡ pos k) × (k < most_events)) }
    ensures { result ≡ nat_abs x }
{
    x as u8
}

// The arcs of the alternatives and of their opposites.
fn load(triples: &[i32]) -> [Edge; ARCS]
    requires { Loadable triples.now }
    ensures { result ≡ edges_of (alternatives 0 triples.now) }
{
    let mut arcs = [Edge { x: 0, y: 0, b: 0 }; ARCS];
    // By an index: `for (j, triple) in triples.chunks_exact(3).enumerate()` was tried, and left twelve goals of the iterator open.
    for j in 0..triples.len() / 3 {
        let x = event(triples[j * 3]);
        let y = event(triples[j * 3 + 1]);
        let b = lent::lifted(triples[j * 3 + 2], BIAS);
        arcs[j] = Edge { x, y, b };
        arcs[ALTERNATIVES + j] = Edge {
            x: y,
            y: x,
            b: TURN - b,
        };
    }
    arcs
}

// The problem that was lent, checked, or why it is refused. The three come apart, as `plan` is lent them (01, "What the table is given").
pub fn check(n: u32, triples: &[i32], counts: &[u32]) -> Result<Problem, Refusal>
    ensures number { told_as result ≡ problem_refusal (given n triples.now counts.now) }
    ensures reads { IfOk result (Reads (given n triples.now counts.now)) }
    ensures value { IfOk result (IsLoaded (given n triples.now counts.now)) }
{
    refusal(n, triples, counts)?;
    Ok(Problem {
        n: n as usize,
        m: counts.len(),
        starts: starts_of(counts),
        arcs: load(triples),
    })
}
