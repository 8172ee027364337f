// A standing day that is lent, and changed where it lies: one thin function around the addition by value.
ghost use Rattle.std.specs.Prelude.{◌≡◌};
ghost use Rattle.standing.specs.Standing.{adding};

use super::Day;
use super::adding::add_fact;

// One fact more in the day where it lies, and 0; or the refusal's number, and the day stays as it is. The byte with 0 for none is the papers'
// (`adding`).
pub fn add_fact_to(day: &mut Day, x: i32, y: i32, c: i32, opposite: bool) -> u8
    ensures { (result ≡ (adding day.old x y c opposite).number) × (day.new ≡ (adding day.old x y c opposite).day) }
{
    let a = add_fact(*day, x, y, c, opposite);
    *day = a.day;
    a.number
}
