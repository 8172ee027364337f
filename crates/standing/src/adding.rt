// A fresh day, and a day with one fact more, by value.
ghost use Rattle.std.specs.Prelude.{◌≡◌, [], ◌∷◌, ◌<◌, ◌≤◌, T, IfOk};
ghost use Rattle.meaning.specs.Limits.{most_events};
ghost use Rattle.meaning.specs.Refusal.{told_as};
ghost use Rattle.meaning.specs.Screen.{problem_refusal};
ghost use Rattle.problem.specs.Arcs.{arc, Arc};
ghost use Rattle.problem.specs.Laid.{arcs};
ghost use Rattle.problem.specs.Loaded.{IsLoaded};
ghost use Rattle.problem.specs.Reads.{given, Reads};
ghost use Rattle.distances.specs.Adding.{fresh, added};
ghost use Rattle.distances.specs.Numbers.{table_at};
ghost use Rattle.standing.specs.Entries.{table_of, day_with};
ghost use Rattle.standing.specs.Standing.{is_table, fresh_day, asked, add_refusal, adding};
ghost use Rattle.standing.specs.Numbers.{arc_number, Capped, Tries};

use super::check::{all_numbers, day_refusal, is_size};
use super::numbers::{entries_of, grid, numbers_of};
use super::{Answered, Day, ENTRIES};
use distances::{Fact, NO_WAY, begin, extend, fits_with};
use meaning::Refusal;
use problem::{ALTERNATIVES, Problem};

// The day of n events and no facts.
fn no_facts(n: u32) -> Day
    requires { n ≤ most_events }
    ensures { result ≡ day_with n fresh }
{
    let mut numbers = [NO_WAY; ENTRIES];
    begin(&mut numbers[..], grid(n as usize));
    Day {
        n,
        entries: entries_of(&numbers),
    }
}

// A day of n events to start with; refused with 1, it is one of no events.
pub fn fresh_day(n: u32) -> Answered
    ensures { result ≡ fresh_day n }
{
    if !is_size(n) {
        return Answered {
            number: u8::from(Refusal::Events),
            day: no_facts(0),
        };
    }
    Answered {
        number: 0,
        day: no_facts(n),
    }
}

// The alternative (x, y, c), read as a problem of one clause: refused with 5, 12 or 6, or its arc 0 and the opposite's, 64.
fn alternative(n: u32, x: i32, y: i32, c: i32) -> Result<Problem, Refusal>
    ensures number { told_as result ≡ problem_refusal (given n (x ∷ y ∷ c ∷ []) (1 ∷ [])) }
    ensures reads { IfOk result (Reads (given n (x ∷ y ∷ c ∷ []) (1 ∷ []))) }
    ensures value { IfOk result (IsLoaded (given n (x ∷ y ∷ c ∷ []) (1 ∷ []))) }
{
    problem::check(n, &[x, y, c], &[1])
}

// The arc of an alternative that is the only one, or of its opposite.
fn arc_of(opposite: bool) -> usize
    ensures { result ≡ arc_number opposite }
{
    if opposite { ALTERNATIVES } else { 0 }
}

// Arc j is tried on the numbers of a day: refused with 13 or 16, or the new numbers.
fn tried(p: &Problem, mut numbers: [u32; ENTRIES], j: usize) -> Result<[u32; ENTRIES], Refusal>
    requires { (p.now.n ≤ most_events) × Arc (arcs p.now) p.now.n j × Capped numbers × T (is_table p.now.n (table_at numbers 0 most_events)) }
    ensures { Tries numbers p.now.n (arc (arcs p.now) j) result }
{
    let day = grid(p.n);
    let fact = Fact::of(p.arcs[j]);
    if !fits_with(&numbers[..], day, fact) {
        return Err(Refusal::NoTimetable);
    }
    extend(&mut numbers[..], day, 0, fact);
    if !all_numbers(&numbers) {
        return Err(Refusal::NoDay);
    }
    Ok(numbers)
}

// The day with one fact more, or why it is refused.
fn added(day: &Day, x: i32, y: i32, c: i32, opposite: bool) -> Result<Day, Refusal>
    ensures number { told_as result ≡ add_refusal day.now x y c opposite }
    ensures value { IfOk result (λ new. new ≡ day_with day.now.n (added (asked x y c opposite) (table_of day.now))) }
{
    let s = numbers_of(&day.entries);
    day_refusal(&s, day.n)?;
    let p = alternative(day.n, x, y, c)?;
    let numbers = tried(&p, s, arc_of(opposite))?;
    Ok(Day {
        n: day.n,
        entries: entries_of(&numbers),
    })
}

// The day with one fact more, the alternative (x, y, c) or its opposite; refused, the day as it came.
pub fn add_fact(day: Day, x: i32, y: i32, c: i32, opposite: bool) -> Answered
    ensures { result ≡ adding day x y c opposite }
{
    match added(&day, x, y, c, opposite) {
        Ok(day) => Answered { number: 0, day },
        Err(refusal) => Answered {
            number: u8::from(refusal),
            day,
        },
    }
}
