// The eight requests: each reads the rest of its line from `at` on, calls the planner and writes the reply; none where the line is malformed,
// and then nothing is written.
ghost use Rattle.std.specs.Prelude.{◌≤◌, IfOk, IfSome, length};
ghost use Rattle.meaning.specs.Limits.{most_alternatives, most_clauses};

use super::Lent;
use dialogue::{Writer, float_of, number_at, read_list};
use exchange::{
    Head, Lists, asked_at, count_at, head_at, list_at, lists_at, put_answer, put_bound, put_day,
    put_length, put_lent, put_panel, put_problem, put_refused, put_refused_at, put_room,
    put_verdict,
};
use meaning::Refusal;
use script::{Refused, Script};
use slider::{Kind, Travel, Use};
use standing::{Day, ENTRIES};

// What lent memory is filled with before a call.
const FILL: u8 = 7;

const FILL_TIME: i32 = 7;

// None where a line goes on at `at`.
fn line_ends(line: &[u8], at: usize) -> Option<()> {
    if at < line.len() { None } else { Some(()) }
}

// The events of a problem and how long its lists are, and the place after them.
fn problem_at(line: &[u8], at: usize, lent: &mut Lent) -> Option<(u32, Lists, usize)>
    ensures { IfSome result (λ r. (r.1.triples ≤ 256) × (r.1.counts ≤ 64)) }
{
    let (n, place) = number_at(line, at, u32::MAX)?;
    let (lists, end) = lists_at(line, place, &mut lent.triples, &mut lent.counts)?;
    Some((n, lists, end))
}

// plan N ALLOWANCE T P R K t1 … tK M e1 … eM
pub(crate) fn plan(line: &[u8], at: usize, lent: &mut Lent, reply: &mut Writer) -> Option<()> {
    let (head, place) = head_at(
        line,
        at,
        lent.timetable.len(),
        lent.picks.len(),
        lent.reasons.len(),
    )?;
    let (lists, end) = lists_at(line, place, &mut lent.triples, &mut lent.counts)?;
    line_ends(line, end)?;
    plan_lent(
        head,
        &lent.triples[..lists.triples],
        &lent.counts[..lists.counts],
        &mut lent.timetable,
        &mut lent.picks,
        &mut lent.reasons,
        reply,
    );
    Some(())
}

// The plan with so much of this memory lent, and its reply. The memory comes one by one: parts of several fields behind one reference are not
// lent at once in a proof.
fn plan_lent(
    head: Head,
    triples: &[i32],
    counts: &[u32],
    timetable: &mut [i32],
    picks: &mut [u8],
    reasons: &mut [u8],
    reply: &mut Writer,
)
    requires { (head.timetable ≤ length timetable.old) × (head.picks ≤ length picks.old) × (head.reasons ≤ length reasons.old) }
{
    let timetable = &mut timetable[..head.timetable];
    let picks = &mut picks[..head.picks];
    let reasons = &mut reasons[..head.reasons];
    timetable.fill(FILL_TIME);
    picks.fill(FILL);
    reasons.fill(FILL);
    let answer = planner::plan(
        head.n,
        triples,
        counts,
        head.allowance,
        timetable,
        picks,
        reasons,
    );
    put_answer(reply, answer);
    put_lent(reply, timetable, picks, reasons)
}

// reasons N K t1 … tK M e1 … eM L b1 … bL
pub(crate) fn reasons(line: &[u8], at: usize, lent: &mut Lent, reply: &mut Writer) -> Option<()> {
    let (n, lists, place) = problem_at(line, at, lent)?;
    let (count, place) = list_at(line, place, &mut lent.reasons)?;
    line_ends(line, place)?;
    let verdict = planner::read_reasons(
        n,
        &lent.triples[..lists.triples],
        &lent.counts[..lists.counts],
        &lent.reasons[..count],
    );
    put_verdict(reply, verdict);
    Some(())
}

// times N K t1 … tK M e1 … eM L m1 … mL
pub(crate) fn times(line: &[u8], at: usize, lent: &mut Lent, reply: &mut Writer) -> Option<()> {
    let (n, lists, place) = problem_at(line, at, lent)?;
    let (count, place) = list_at(line, place, &mut lent.timetable)?;
    line_ends(line, place)?;
    let verdict = planner::read_timetable(
        n,
        &lent.triples[..lists.triples],
        &lent.counts[..lists.counts],
        &lent.timetable[..count],
    );
    put_verdict(reply, verdict);
    Some(())
}

// lamps N K t1 … tK M e1 … eM
pub(crate) fn lamps(line: &[u8], at: usize, lent: &mut Lent, reply: &mut Writer) -> Option<()> {
    let (n, lists, place) = problem_at(line, at, lent)?;
    line_ends(line, place)?;
    let panel = planner::lamps(
        n,
        &lent.triples[..lists.triples],
        &lent.counts[..lists.counts],
    );
    put_panel(reply, panel);
    Some(())
}

// slide KIND A B POSITION USE
pub(crate) fn slide(line: &[u8], at: usize, reply: &mut Writer) -> Option<()> {
    let (kind, place) = number_at(line, at, 2)?;
    let (a, place) = number_at(line, place, u32::MAX)?;
    let (b, place) = number_at(line, place, u32::MAX)?;
    let (position, place) = number_at(line, place, u32::MAX)?;
    let (used, place) = number_at(line, place, 1)?;
    line_ends(line, place)?;
    let kind = kind_of(kind, a, b)?;
    let bound = planner::slide(kind, float_of(position), use_of(used)).map_err(u8::from);
    put_bound(reply, bound);
    Some(())
}

// The kind of slider that a number stands for, with its travel, its work or its number; only a span has both. A function and no From:
// neither the number's type nor the kind's is the table's own.
fn kind_of(kind: u32, a: u32, b: u32) -> Option<Kind> {
    match (kind, b) {
        (0, _) => Some(Kind::Span(Travel {
            low: float_of(a),
            high: float_of(b),
        })),
        (1, 0) => Some(Kind::Rate { work: float_of(a) }),
        (2, 0) => Some(Kind::Fixed(float_of(a))),
        _ => None,
    }
}

// The use that a number stands for; `number_at` let 0 and 1 through.
fn use_of(used: u32) -> Use {
    match used {
        0 => Use::AtMost,
        _ => Use::AtLeast,
    }
}

// script L b1 … bL
pub(crate) fn script(line: &[u8], at: usize, lent: &mut Lent, reply: &mut Writer) -> Option<()> {
    let (count, place) = list_at(line, at, &mut lent.reasons)?;
    line_ends(line, place)?;
    let script = planner::read_script(&lent.reasons[..count]);
    put_script(reply, script);
    Some(())
}

// What a script gives: the problem, or the refusal.
fn put_script(reply: &mut Writer, script: Result<Script, Refused>)
    requires { IfOk script (λ (s : Script). (s.rules.alternatives ≤ most_alternatives) × (s.rules.clauses ≤ most_clauses)) }
{
    match script {
        Ok(script) => put_problem(reply, script.n, script.triples(), script.counts()),
        Err(refused) => put_refused_at(reply, u8::from(refused.refusal), refused.place),
    }
}

// write R N K t1 … tK M e1 … eM
pub(crate) fn write(line: &[u8], at: usize, lent: &mut Lent, reply: &mut Writer) -> Option<()> {
    let (size, place) = count_at(line, at, lent.reasons.len())?;
    let (n, lists, place) = problem_at(line, place, lent)?;
    line_ends(line, place)?;
    write_lent(
        n,
        &lent.triples[..lists.triples],
        &lent.counts[..lists.counts],
        &mut lent.reasons,
        size,
        reply,
    );
    Some(())
}

// The text written into so much of this room, and its reply.
fn write_lent(
    n: u32,
    triples: &[i32],
    counts: &[u32],
    room: &mut [u8],
    size: usize,
    reply: &mut Writer,
)
    requires { size ≤ length room.old }
{
    let room = &mut room[..size];
    room.fill(FILL);
    put_written(reply, planner::write_script(n, triples, counts, room));
    put_room(reply, room)
}

// What writing gives: the length of the text, or the refusal.
fn put_written(reply: &mut Writer, written: Result<usize, Refusal>) {
    match written {
        Ok(length) => put_length(reply, length),
        Err(refusal) => put_refused(reply, u8::from(refusal)),
    }
}

// day N O X Y C T d1 … d576
pub(crate) fn day(line: &[u8], at: usize, lent: &mut Lent, reply: &mut Writer) -> Option<()> {
    let (asked, place) = asked_at(line, at, lent.timetable.len())?;
    let mut entries = [0; ENTRIES];
    let place = read_list(line, place, &mut entries)?;
    line_ends(line, place)?;
    let timetable = &mut lent.timetable[..asked.timetable];
    timetable.fill(FILL_TIME);
    let day = Day {
        n: asked.n,
        entries,
    };
    let fact = asked.fact;
    let added = planner::add_fact(day, fact.x, fact.y, fact.c, asked.opposite);
    let off = planner::read_day(added.day, timetable);
    put_day(reply, added.number, off, &added.day.entries, timetable);
    Some(())
}
