// The two readers: 01, "The list of reasons". Each is a witness beside the search and shares no code with it: the one reads a list of
// reasons down one clause at a time, the other tests a timetable against every clause.
#![tactic(auto)]

mod facts;

ghost use Rattle.std.specs.Prelude.{◌≡◌, map, ◌-◌, ◌*◌, ◌<◌, ◌≤◌, length, ◌-ℤ◌};
ghost use Rattle.std.proofs.Math.IntN.{sub_ℕ};
ghost use Rattle.std.specs.Int.Signed.{le_z};
ghost use Rattle.meaning.specs.Limits.{row_bytes};
ghost use Rattle.meaning.specs.Problem.{satisfied};
ghost use Rattle.meaning.specs.Plain.{times_of};
ghost use Rattle.meaning.specs.Reasons.{numbers, blank, all_blank, loops, cycle_over, kind, read, is_reading};
ghost use Rattle.meaning.specs.Verdicts.{some, keeps, reasons_verdict, timetable_verdict};
ghost use Rattle.problem.specs.Arcs.{bias, arc, Arc, Known};
ghost use Rattle.problem.specs.Laid.{arcs, clause_of, clauses_from, clauses_in};
ghost use Rattle.problem.specs.Reads.{given};
ghost use Rattle.readers.specs.Standing.{held, facts_from, Stands};
ghost use Rattle.readers.specs.Leaves.{kind_of, dead_rows, Answers, said};

use facts::Facts;
use meaning::{Refusal, Verdict};
use problem::{ALTERNATIVES, BIAS, Problem, ROW};

// What fills a row, and the first byte of a mark row: 240, or 200 + d.
const BLANK_BYTE: u8 = 255;

const ONWARD_MARK: u8 = 240;

const DEAD_MARK: u8 = 200;

// The numbers of arcs lie below.
const ARCS_END: u8 = 128;

// What a row is that is read: a cycle row, 240, or 200 + d.
#[derive(Clone, Copy)]
enum Mark {
    Ring,
    Onward,
    Dead(usize),
}

// Whether all bytes are 255.
fn is_blank(bytes: &[u8]) -> bool
    ensures { result ≡ blank bytes.now }
{
    bytes.iter().all(|&b| b == BLANK_BYTE)
}

// Whether all bytes of all rows are 255.
fn are_blank(rows: &[[u8; ROW]]) -> bool
    ensures { result ≡ all_blank row_bytes rows.now }
{
    rows.iter().all(|row| is_blank(row))
}

// How many numbers a row has before its 255s.
fn row_len(row: &[u8]) -> usize
    ensures { result ≡ length (numbers row.now) }
{
    row.iter()
        .position(|&b| b == BLANK_BYTE)
        .unwrap_or(row.len())
}

// What a row is, or nothing where it is no row of a reading.
fn mark_of(row: &[u8; ROW]) -> Option<Mark>
    ensures { kind_of result ≡ kind row_bytes row.now }
{
    let first = row[0];
    if first < ARCS_END {
        return Some(Mark::Ring);
    }
    if !is_blank(&row[1..]) {
        return None;
    }
    match first {
        ONWARD_MARK => Some(Mark::Onward),
        DEAD_MARK.. => Some(Mark::Dead(usize::from(first - DEAD_MARK))),
        _ => None,
    }
}

// Whether the numbers, each a fact, are the arcs of a closed walk whose bounds sum below 0.
fn is_cycle(p: &Problem, facts: &[u8], walked: &[u8]) -> bool
    requires { Known (arcs p.now) p.now.n facts.now × (length walked.now ≤ row_bytes) }
    ensures { result ≡ loops (map (arc (arcs p.now)) facts.now) walked.now }
{
    let Some(first) = walked.first() else {
        return false;
    };
    if !facts.contains(first) {
        return false;
    }
    let start = p.arcs[usize::from(*first)].y;
    let mut here = start;
    let mut sum = 0;
    for b in walked {
        if !facts.contains(b) {
            return false;
        }
        let arc = p.arcs[usize::from(*b)];
        if arc.y != here {
            return false;
        }
        here = arc.x;
        sum += arc.b;
    }
    here == start && sum < walked.len() as u32 * BIAS
}

// Whether a row is a cycle row over the facts.
fn is_cycle_row(p: &Problem, facts: Facts, row: &[u8; ROW]) -> bool
    requires { Known (arcs p.now) p.now.n (held facts) }
    ensures { result ≡ cycle_over (facts_from p.now facts) row.now }
{
    let (walked, filling) = row.split_at(row_len(row));
    is_blank(filling) && is_cycle(p, facts.numbers(), walked)
}

// After 200 + d: a cycle row for each alternative of d, a later clause, over the facts and that alternative.
fn dead<'a>(
    p: &Problem,
    rows: &'a [[u8; ROW]],
    k: usize,
    facts: Facts,
    d: usize,
) -> Option<&'a [[u8; ROW]]>
    requires { Stands p.now k facts }
    ensures { Answers (dead_rows (clauses_from p.now k (p.now.m - k)) k d (facts_from p.now facts) rows.now) result }
{
    if !(k..p.m).contains(&d) {
        return None;
    }
    let mut rest = rows;
    for j in p.starts[d]..p.starts[d + 1] {
        let (row, after) = rest.split_first()?;
        if !is_cycle_row(p, facts.with(j), row) {
            return None;
        }
        rest = after;
    }
    Some(rest)
}

// The rows after the reading of the standing with k clauses chosen, from the first row on.
fn reading<'a>(
    p: &Problem,
    rows: &'a [[u8; ROW]],
    k: usize,
    facts: Facts,
) -> Option<&'a [[u8; ROW]]>
    requires { Stands p.now k facts }
    ensures { Answers (read row_bytes (clauses_from p.now k (p.now.m - k)) k (facts_from p.now facts) rows.now) result }
{
    let (row, mut rest) = rows.split_first()?;
    match mark_of(row)? {
        Mark::Ring => is_cycle_row(p, facts, row).then_some(rest),
        Mark::Dead(d) => dead(p, rest, k, facts, d),
        Mark::Onward => {
            if k == p.m {
                return None;
            }
            let mut known = facts;
            for j in p.starts[k]..p.starts[k + 1] {
                rest = reading(p, rest, k + 1, known.with(j))?;
                known = known.with(ALTERNATIVES as u8 + j);
            }
            Some(rest)
        }
    }
}

// Whether the front of the list is one whole reading and all bytes after it are 255.
fn is_reading(p: &Problem, list: &[u8]) -> bool
    ensures { result ≡ is_reading row_bytes (clauses_in p.now) list.now }
{
    let (rows, tail) = list.as_chunks::<ROW>();
    match reading(p, rows, 0, Facts::none()) {
        None => false,
        Some(rest) => are_blank(rest) && is_blank(tail),
    }
}

// Whether tx − ty is at most the bound that b stands for. Any two times are taken, so the difference has 64 bits.
fn at_most(tx: i32, ty: i32, b: u32) -> bool
    requires { b < 2 * bias }
    ensures { result ≡ le_z (tx -ℤ ty) (sub_ℕ b bias) }
{
    let c = b as i32 - BIAS as i32;
    i64::from(tx) - i64::from(ty) <= i64::from(c)
}

// Whether the timetable satisfies alternative j.
fn is_satisfied(p: &Problem, times: &[i32], j: usize) -> bool
    requires { Arc (arcs p.now) p.now.n j × (p.now.n ≤ length times.now) }
    ensures { result ≡ satisfied (times_of times.now) (arc (arcs p.now) j) }
{
    let arc = p.arcs[j];
    at_most(times[usize::from(arc.x)], times[usize::from(arc.y)], arc.b)
}

// Whether the timetable satisfies an alternative of clause k.
fn is_some_satisfied(p: &Problem, times: &[i32], k: usize) -> bool
    requires { (p.now.n ≤ length times.now) × (k < p.now.m) }
    ensures { result ≡ some (times_of times.now) (clause_of p.now k) }
{
    (p.starts[k]..p.starts[k + 1]).any(|j| is_satisfied(p, times, j as usize))
}

// Whether the first n times keep the problem.
fn is_kept(p: &Problem, times: &[i32]) -> bool
    requires { p.now.n ≤ length times.now }
    ensures { result ≡ keeps (times_of times.now) (clauses_in p.now) }
{
    (0..p.m).all(|k| is_some_satisfied(p, times, k))
}

// What a reader says, by its answer or the refusal.
fn verdict_of(answer: Result<bool, Refusal>) -> Verdict
    ensures { result ≡ said answer }
{
    match answer {
        Ok(true) => Verdict::Yes,
        Ok(false) => Verdict::No,
        Err(refusal) => Verdict::Refused {
            number: u8::from(refusal),
        },
    }
}

// Whether the list is one whole reading of the problem that is lent.
fn is_read(n: u32, triples: &[i32], counts: &[u32], list: &[u8]) -> Result<bool, Refusal>
    ensures { said result ≡ reasons_verdict (given n triples.now counts.now) list.now }
{
    let p = problem::check(n, triples, counts)?;
    Ok(is_reading(&p, list))
}

// Whether the first n times keep the problem that is lent.
fn is_day(n: u32, triples: &[i32], counts: &[u32], timetable: &[i32]) -> Result<bool, Refusal>
    ensures { said result ≡ timetable_verdict (given n triples.now counts.now) timetable.now }
{
    let p = problem::check(n, triples, counts)?;
    if timetable.len() < p.n {
        return Err(Refusal::Lent);
    }
    Ok(is_kept(&p, timetable))
}

// Whether the list is one whole reading of the problem that is lent, then 255s; or the number that refuses the problem.
pub fn read_reasons(n: u32, triples: &[i32], counts: &[u32], list: &[u8]) -> Verdict
    ensures { result ≡ reasons_verdict (given n triples.now counts.now) list.now }
{
    verdict_of(is_read(n, triples, counts, list))
}

// Whether the first n times keep the problem that is lent; or the number that refuses the problem, or 8 for a timetable shorter than n.
pub fn read_timetable(n: u32, triples: &[i32], counts: &[u32], timetable: &[i32]) -> Verdict
    ensures { result ≡ timetable_verdict (given n triples.now counts.now) timetable.now }
{
    verdict_of(is_day(n, triples, counts, timetable))
}
