// Which numbers are a standing day (02, A8, refusal 16): in range, in their places, and with no detour shorter than an entry.
ghost use Rattle.std.specs.Prelude.{◌≡◌, ℕ, ◌+◌, ◌*◌, ◌<◌, ◌≤◌};
ghost use Rattle.meaning.specs.Limits.{most_events};
ghost use Rattle.problem.specs.Arcs.{at};
ghost use Rattle.distances.specs.Adding.{no_longer, and_then};
ghost use Rattle.distances.specs.Numbers.{distance, table_at};
ghost use Rattle.meaning.specs.Refusal.{told_as};
ghost use Rattle.meaning.specs.Screen.{is_size, first_failed};
ghost use Rattle.standing.specs.Standing.{every, in_range, is_table, table_tests};
ghost use Rattle.standing.specs.Numbers.{placed_at};

use super::ENTRIES;
use distances::{MIDDLE, NO_WAY};
use meaning::Refusal;
use problem::EVENTS;

// One more than the number of the longest distance.
const RANGE_END: u32 = 2 * MIDDLE;

// Whether a number is none's or a distance's in range.
fn is_number(e: u32) -> bool
    ensures { result ≡ in_range (distance e) }
{
    NO_WAY <= e || (1 <= e && e < RANGE_END)
}

// Whether all numbers are.
pub fn all_numbers(s: &[u32; ENTRIES]) -> bool
    ensures { result ≡ every (most_events * most_events) (λ (k : ℕ). in_range (distance (at s.now k))) }
{
    s.iter().all(|&e| is_number(e))
}

// Whether a number may stand from event u to event v: none's past the last event, and 0's from an event to itself.
fn is_placed(e: u32, u: usize, v: usize, n: usize) -> bool
    ensures { result ≡ placed_at n u v (distance e) }
{
    if n <= u || n <= v {
        NO_WAY <= e
    } else {
        u != v || e == MIDDLE
    }
}

// Whether all numbers of event u's row may stand where they do.
fn row_placed(s: &[u32; ENTRIES], n: usize, u: usize) -> bool
    requires { u < most_events }
    ensures { result ≡ every most_events (λ (v : ℕ). placed_at n u v (table_at s.now 0 most_events u v)) }
{
    (0..EVENTS).all(|v| is_placed(s[u * EVENTS + v], u, v, n))
}

// Whether all numbers may stand where they do.
fn all_placed(s: &[u32; ENTRIES], n: usize) -> bool
    ensures { result ≡ every most_events (λ (u : ℕ). every most_events (λ (v : ℕ). placed_at n u v (table_at s.now 0 most_events u v))) }
{
    (0..EVENTS).all(|u| row_placed(s, n, u))
}

// Whether the distance of e is no longer than the way of p and then q.
fn is_kept(e: u32, p: u32, q: u32) -> bool
    ensures { result ≡ no_longer (distance e) (and_then (distance p) (distance q)) }
{
    if NO_WAY <= p || NO_WAY <= q {
        return true;
    }
    e < NO_WAY && e + MIDDLE <= p + q
}

// Whether no way from u over w is shorter than an entry from u. This and the two after it are a function for each closure's contract: a nested
// closure left goals too large to answer.
fn over_kept(s: &[u32; ENTRIES], n: usize, u: usize, w: usize) -> bool
    requires { (n ≤ most_events) × (u < n) × (w < n) }
    ensures { result ≡ every n (λ (v : ℕ). no_longer (table_at s.now 0 most_events u v) (and_then (table_at s.now 0 most_events u w) (table_at s.now 0 most_events w v))) }
{
    let p = s[u * EVENTS + w];
    (0..n).all(|v| is_kept(s[u * EVENTS + v], p, s[w * EVENTS + v]))
}

// Whether no detour from u is shorter than an entry.
fn from_kept(s: &[u32; ENTRIES], n: usize, u: usize) -> bool
    requires { (n ≤ most_events) × (u < n) }
    ensures { result ≡ every n (λ (w : ℕ). every n (λ (v : ℕ). no_longer (table_at s.now 0 most_events u v) (and_then (table_at s.now 0 most_events u w) (table_at s.now 0 most_events w v)))) }
{
    (0..n).all(|w| over_kept(s, n, u, w))
}

// Whether no detour is shorter than an entry.
fn all_kept(s: &[u32; ENTRIES], n: usize) -> bool
    requires { n ≤ most_events }
    ensures { result ≡ every n (λ (u : ℕ). every n (λ (w : ℕ). every n (λ (v : ℕ). no_longer (table_at s.now 0 most_events u v) (and_then (table_at s.now 0 most_events u w) (table_at s.now 0 most_events w v))))) }
{
    (0..n).all(|u| from_kept(s, n, u))
}

// Whether the numbers are a standing day of n events.
pub fn is_table(s: &[u32; ENTRIES], n: usize) -> bool
    requires { n ≤ most_events }
    ensures { result ≡ is_table n (table_at s.now 0 most_events) }
{
    all_numbers(s) && all_placed(s, n) && all_kept(s, n)
}

// Whether there may be n events.
pub fn is_size(n: u32) -> bool
    ensures { result ≡ is_size n }
{
    1 <= n && n as usize <= EVENTS
}

// What refuses a lent day everywhere: 1 or 16.
pub fn day_refusal(s: &[u32; ENTRIES], n: u32) -> Result<(), Refusal>
    ensures { told_as result ≡ first_failed (table_tests n (table_at s.now 0 most_events)) }
{
    if !is_size(n) {
        return Err(Refusal::Events);
    }
    if !is_table(s, n as usize) {
        return Err(Refusal::NoDay);
    }
    Ok(())
}
