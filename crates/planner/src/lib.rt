// The planner's public operations: `plan`, `read_reasons`, `read_timetable`, `lamps`, `slide`, `read_script`, `write_script`, and on a standing
// day `fresh_day`, `add_fact`, `add_fact_to` and `read_day`. Each answers every input; none asks anything of its caller.
#![tactic(auto)]

ghost use Rattle.std.specs.Prelude.{◌≡◌, true, ◌++◌, ℕ, ◌≤◌, length, take, drop, IfOk};
ghost use Rattle.meaning.specs.Limits.{most_allowance};
ghost use Rattle.meaning.specs.Refusal.{told_as};
ghost use Rattle.meaning.specs.declared.Answer.TheVariants.{Stopped};
ghost use Rattle.meaning.specs.Plain.{chosen, rank};
ghost use Rattle.meaning.specs.Decision.{sound, latest_of};
ghost use Rattle.meaning.specs.Screen.{refusal, Shows};
ghost use Rattle.problem.specs.Laid.{clauses_in};
ghost use Rattle.problem.specs.Reads.{given, Reads};
ghost use Rattle.search.specs.Standing.{Inside};
ghost use Rattle.search.specs.Steps.{positions, most_rows};
ghost use Rattle.planner.specs.Call.{call, Cleared, Answers, Closes, Plans};

pub use lamps::lamps;
use meaning::{Answer, Refusal};
use problem::{CLAUSES, Problem, ROW};
pub use readers::{read_reasons, read_timetable};
pub use script::{read_script, write_script};
use search::{End, Place};
pub use slider::slide;
pub use standing::{add_fact, add_fact_to, fresh_day, read_day};

// The largest allowance.
const ALLOWANCE: u32 = 1000000;

// What a timetable that is none, and picks and reasons past their ends, are filled with: the papers' numbers (`Screen.cleared`).
const NO_TIME: i32 = 1;

const BLANK: u8 = 255;

// The problem of an accepted call; or the refusal: the problem's own, then 7 and 8.
fn admitted(
    n: u32,
    triples: &[i32],
    counts: &[u32],
    allowance: u32,
    times: usize,
    picks: usize,
) -> Result<Problem, Refusal>
    ensures by_index { (room : ℕ) → told_as result ≡ refusal (call n triples.now counts.now allowance times picks room) }
    ensures reads { IfOk result (Reads (given n triples.now counts.now)) }
{
    let p = problem::check(n, triples, counts)?;
    if ALLOWANCE < allowance {
        return Err(Refusal::Allowance);
    }
    if times < n as usize || picks < counts.len() {
        return Err(Refusal::Lent);
    }
    Ok(p)
}

// The latest timetable of the selection of the picks, in place of the first n times.
fn put_day(p: &Problem, picks: [u8; CLAUSES], timetable: &mut [i32])
    requires { Inside p.now picks p.now.m × (p.now.n ≤ length timetable.old) × (sound (chosen (clauses_in p.now) (take p.now.m picks)) ≡ true) }
    ensures { timetable.new ≡ latest_of p.now.n (chosen (clauses_in p.now) (take p.now.m picks)) ++ drop p.now.n timetable.old }
{
    let f = search::chosen_of(p, picks);
    if let Some(times) = f.tested(p) {
        lent::put_negated(timetable, &times[..p.n]);
    }
}

// A search that found the plan at the place s.
fn found(p: &Problem, s: Place, timetable: &mut [i32], picks: &mut [u8]) -> Answer
    requires { Inside p.now s.standing.picks s.standing.k × (s.standing.k ≡ p.now.m) × (p.now.n ≤ length timetable.old) × (p.now.m ≤ length picks.old) × (sound (chosen (clauses_in p.now) (positions s)) ≡ true) }
    ensures { Plans p.now s result timetable.old timetable.new picks.old picks.new }
{
    let standing = s.standing;
    let k = standing.k;
    put_day(p, standing.picks, timetable);
    picks[..k].copy_from_slice(&standing.picks[..k]);
    Answer::Plan {
        visits: s.visits,
        before: search::rank_of(p, standing),
    }
}

// A search that ended without a plan at the place s, with room for so many bytes: listed where the rows fit, and else no list.
fn closed(p: &Problem, s: Place, room: usize) -> Answer
    requires { s.rows ≤ most_rows }
    ensures { Closes p.now s room result }
{
    let visits = s.visits;
    let before = search::under(p, 0);
    let rows = s.rows as u64;
    if s.rows * ROW <= room {
        Answer::None {
            visits,
            before,
            rows,
        }
    } else {
        Answer::Unlisted {
            visits,
            before,
            rows,
        }
    }
}

// A search that stopped before the place s.
fn stopped(p: &Problem, s: Place) -> Answer
    requires { Inside p.now s.standing.picks s.standing.k }
    ensures { result ≡ Stopped s.visits (rank (clauses_in p.now) (positions s)) }
{
    Answer::Stopped {
        visits: s.visits,
        before: search::rank_of(p, s.standing),
    }
}

// The search of an accepted problem, over lent memory that is cleared, and what it leaves there. The three slices stay apart, as `plan` is
// lent them: each end of a search writes others of them.
fn planned(
    p: &Problem,
    allowance: u64,
    timetable: &mut [i32],
    picks: &mut [u8],
    reasons: &mut [u8],
) -> Answer
    requires { (allowance ≤ most_allowance) × Cleared timetable.old picks.old reasons.old × (p.now.n ≤ length timetable.old) × (p.now.m ≤ length picks.old) }
    ensures { Answers p.now allowance (length timetable.old) (length picks.old) (length reasons.old) result timetable.new picks.new reasons.new }
{
    match search::run(p, allowance, reasons) {
        End::Closed(s) => closed(p, s, reasons.len()),
        End::Plan(s) => found(p, s, timetable, picks),
        End::Stop(s) => stopped(p, s),
    }
}

// Finds a day that keeps all clauses: the first selection in dictionary order that has a timetable, with its latest one. The timetable, the
// picks and the reasons are cleared before anything is looked at, and hold what 01's table says of the answer.
pub fn plan(
    n: u32,
    triples: &[i32],
    counts: &[u32],
    allowance: u32,
    timetable: &mut [i32],
    picks: &mut [u8],
    reasons: &mut [u8],
) -> Answer
    ensures { Shows (call n triples.now counts.now allowance (length timetable.old) (length picks.old) (length reasons.old)) result timetable.new picks.new reasons.new }
{
    timetable.fill(NO_TIME);
    picks.fill(BLANK);
    reasons.fill(BLANK);
    match admitted(n, triples, counts, allowance, timetable.len(), picks.len()) {
        Ok(p) => planned(&p, u64::from(allowance), timetable, picks, reasons),
        Err(refusal) => Answer::Refused {
            number: u8::from(refusal),
        },
    }
}
