// Reads a script from standard input, plans its problem and prints what was found, in one line: `sat`, `unsat`, `unknown`, `refused NUMBER`
// (20 with its place) or `too long`.
#![tactic(auto)]

ghost use Rattle.std.specs.Prelude.{◌≡◌};
ghost use Rattle.dialogue.specs.Puts.{Puts};
ghost use Rattle.solve.specs.Says.{of_answer, says, said};

use dialogue::Writer;
use exchange::put_script_refused;
use meaning::Answer;
use problem::{CLAUSES, EVENTS};
use script::BYTES;

// The allowance of visits.
const ALLOWANCE: u32 = 1000000;

// What is said of a script.
#[derive(Clone, Copy)]
pub enum Saying {
    Sat,
    Unsat,
    Unknown,
    Refused { number: u8, place: usize },
    TooLong,
}

// What is said of an answer of `plan`. It tells a refusal's number, as the screen does, and no place.
#[tactic(auto, unfolding(crate::specs::Says::of_answer))]
fn saying_of(answer: Answer) -> Saying
    ensures { result ≡ of_answer answer }
{
    match answer {
        Answer::Plan { .. } => Saying::Sat,
        Answer::None { .. } | Answer::Unlisted { .. } => Saying::Unsat,
        Answer::Stopped { .. } => Saying::Unknown,
        Answer::Refused { number } => Saying::Refused { number, place: 0 },
    }
}

// What is said of a text: its script read, and the problem planned with no room for reasons.
fn solution(text: &[u8]) -> Saying
    ensures { result ≡ says text.now }
{
    if BYTES < text.len() {
        return Saying::TooLong;
    }
    match planner::read_script(text) {
        Ok(script) => {
            let mut timetable = [0i32; EVENTS];
            let mut picks = [0u8; CLAUSES];
            saying_of(planner::plan(
                script.n,
                script.triples(),
                script.counts(),
                ALLOWANCE,
                &mut timetable,
                &mut picks,
                &mut [],
            ))
        }
        Err(refused) => Saying::Refused {
            number: refused.refusal.into(),
            place: refused.place,
        },
    }
}

// Writes what is said.
#[tactic(auto, unfolding(crate::specs::Says::said, grammar::specs::Grammar::bytes))]
fn put_saying(line: &mut Writer, saying: Saying)
    ensures { Puts line.old line.new (said saying) }
{
    match saying {
        Saying::Sat => line.put(b"sat"),
        Saying::Unsat => line.put(b"unsat"),
        Saying::Unknown => line.put(b"unknown"),
        Saying::Refused { number, place } => put_script_refused(line, number, place),
        Saying::TooLong => line.put(b"too long"),
    }
}

fn main() {
    let mut text = [0u8; BYTES + 1];
    let got = io::read_full(0, &mut text);
    let mut room = [0u8; 64];
    let mut line = Writer::new(&mut room);
    put_saying(&mut line, solution(&text[..got]));
    line.put(b"\n");
    io::write_all(1, line.text());
}
