// The latest timetable, read off a standing day.
ghost use Rattle.std.specs.Prelude.{◌≡◌, ◌<◌, length};
ghost use Rattle.meaning.specs.Refusal.{told_as};
ghost use Rattle.standing.specs.Standing.{read_refusal, times_read};

use super::Day;
use super::check::day_refusal;
use super::numbers::{grid, numbers_of};
use distances::latest;
use meaning::Refusal;

// What a timetable that is none, and one past its last event, is filled with.
const NO_TIME: i32 = 1;

// The n times of the latest timetable, then 1s; refused with 1, 16 or 8, all 1.
fn read(day: &Day, timetable: &mut [i32]) -> Result<(), Refusal>
    ensures number { told_as result ≡ read_refusal day.now (length timetable.old) }
    ensures timetable_after { timetable.new ≡ times_read day.now (length timetable.old) (told_as result) }
{
    timetable.fill(NO_TIME);
    let s = numbers_of(&day.entries);
    day_refusal(&s, day.n)?;
    let n = day.n as usize;
    if timetable.len() < n {
        return Err(Refusal::Lent);
    }
    let times = latest(&s[..], grid(n));
    lent::put_negated(timetable, &times[..n]);
    Ok(())
}

// The n times of the latest timetable, then 1s, and 0; or the refusal 1, 16 or 8, and all 1. The byte with 0 for none is the papers'
// (`read_refusal`).
pub fn read_day(day: Day, timetable: &mut [i32]) -> u8
    ensures value { result ≡ read_refusal day (length timetable.old) }
    ensures timetable_after { timetable.new ≡ times_read day (length timetable.old) (read_refusal day (length timetable.old)) }
{
    match read(&day, timetable) {
        Ok(()) => 0,
        Err(refusal) => u8::from(refusal),
    }
}
