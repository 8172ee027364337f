// A problem written as a script, into room that is lent.
ghost use Rattle.std.specs.Prelude.{length};
ghost use Rattle.problem.specs.Reads.{given};
ghost use Rattle.script.specs.Text.{Writes};

use super::text::put_text;
use dialogue::Writer;
use meaning::Refusal;
use problem::{ALTERNATIVES, CLAUSES, EVENTS};

// No text of an accepted problem is longer.
pub const LONGEST_TEXT: usize = 31 + 25 * EVENTS + 15 * CLAUSES + 28 * ALTERNATIVES;

// Writes a problem as a script that `read_script` reads as the same problem, its events named e0, e1 and so on, and answers the text's length.
// A room of 2,903 bytes is always enough. After a text the rest of the room is zeros; refused, all of it.
pub fn write_script(
    n: u32,
    triples: &[i32],
    counts: &[u32],
    room: &mut [u8],
) -> Result<usize, Refusal>
    ensures { Writes (given n triples.now counts.now) (length room.old) result room.new }
{
    room.fill(0);
    problem::refusal(n, triples, counts)?;
    let mut text = [0u8; LONGEST_TEXT];
    let mut out = Writer::new(&mut text);
    put_text(&mut out, n, triples, counts);
    let whole = out.text();
    if room.len() < whole.len() {
        return Err(Refusal::Room);
    }
    room[..whole.len()].copy_from_slice(whole);
    Ok(whole.len())
}
