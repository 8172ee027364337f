// Why a lent problem is refused: 01, "Refusal numbers", 1 to 6 and 12.
ghost use Rattle.std.specs.Prelude.{◌≡◌};
ghost use Rattle.meaning.specs.Refusal.{told_as};
ghost use Rattle.meaning.specs.Screen.{stepped, events, bounds, is_event, are_events, are_apart, is_bound, problem_refusal};
ghost use Rattle.problem.specs.Reads.{given};

use crate::{ALTERNATIVES, BOUND, CLAUSES, EVENTS, IN_CLAUSE};
use meaning::Refusal;

// Whether the clause counts, begun from 0, never fall, rise by 4 at the most, and end at the number of triples.
fn steps(counts: &[u32], last: usize) -> bool
    ensures { result ≡ stepped last 0 counts.now }
{
    let mut from = 0usize;
    for &count in counts {
        let end = count as usize;
        if end < from || IN_CLAUSE < end - from {
            return false;
        }
        from = end;
    }
    from == last
}

// Whether x is an event number, 0 to n − 1.
fn is_event(n: u32, x: i32) -> bool
    ensures { result ≡ is_event n x }
{
    0 <= x && (x as u32) < n
}

// Whether c is a bound, within ±100,000.
fn is_bound(c: i32) -> bool
    ensures { result ≡ is_bound c }
{
    (-BOUND..=BOUND).contains(&c)
}

// Whether all event numbers of the triples are.
fn all_events(n: u32, triples: &[i32]) -> bool
    ensures { result ≡ events (are_events n) triples.now }
{
    triples
        .chunks_exact(3)
        .all(|triple| is_event(n, triple[0]) && is_event(n, triple[1]))
}

// Whether no triple holds an event against itself.
fn all_apart(triples: &[i32]) -> bool
    ensures { result ≡ events are_apart triples.now }
{
    triples.chunks_exact(3).all(|triple| triple[0] != triple[1])
}

// Whether all bounds of the triples are.
fn all_bounds(triples: &[i32]) -> bool
    ensures { result ≡ bounds is_bound triples.now }
{
    triples.chunks_exact(3).all(|triple| is_bound(triple[2]))
}

// Whether a problem is refused, and why: the first that applies of 1 2 3 4 5 12 6. The three slices come apart, as `plan` is lent them
// (01, "What the table is given").
pub fn refusal(n: u32, triples: &[i32], counts: &[u32]) -> Result<(), Refusal>
    ensures { told_as result ≡ problem_refusal (given n triples.now counts.now) }
{
    if n < 1 || EVENTS < n as usize {
        return Err(Refusal::Events);
    }
    if CLAUSES < counts.len() {
        return Err(Refusal::Clauses);
    }
    if triples.len() % 3 != 0 || 3 * ALTERNATIVES < triples.len() {
        return Err(Refusal::Triples);
    }
    if !steps(counts, triples.len() / 3) {
        return Err(Refusal::Counts);
    }
    if !all_events(n, triples) {
        return Err(Refusal::Event);
    }
    if !all_apart(triples) {
        return Err(Refusal::Itself);
    }
    if !all_bounds(triples) {
        return Err(Refusal::Bound);
    }
    Ok(())
}
