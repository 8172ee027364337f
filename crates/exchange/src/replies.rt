// Writing a reply: each function writes one part of it where the writer is.
ghost use Rattle.std.specs.Prelude.{◌≡◌};
ghost use Rattle.dialogue.specs.Puts.{Puts};
ghost use Rattle.exchange.specs.Replies.{next, with_two, with_three, refused_text, answer_text, bar, barred, lent_text, verdict_text, panel_text, bound_text, problem_text, refused_at_text, script_refused_text, length_text, day_text};

use dialogue::{Decimal, Writer};
use meaning::{Answer, Panel, Verdict};

// The refusal of a script that carries a place: a number, as every refusal in a reply.
const WITH_PLACE: u8 = 20;

// A space and a number.
fn put_next(reply: &mut Writer, n: u64)
    ensures { Puts reply.old reply.new (next n) }
{
    reply.put(b" ");
    reply.put_number(n)
}

// A word and two numbers, as visits and before.
fn put_two(reply: &mut Writer, word: &[u8], visits: u64, before: u64)
    ensures { Puts reply.old reply.new (with_two word.now visits before) }
{
    reply.put(word);
    put_next(reply, visits);
    put_next(reply, before)
}

// A word, visits, before and rows.
fn put_three(reply: &mut Writer, word: &[u8], visits: u64, before: u64, rows: u64)
    ensures { Puts reply.old reply.new (with_three word.now visits before rows) }
{
    put_two(reply, word, visits, before);
    put_next(reply, rows)
}

// A refusal and its number.
pub fn put_refused(reply: &mut Writer, number: u8)
    ensures { Puts reply.old reply.new (refused_text number) }
{
    reply.put(b"refused");
    put_next(reply, number as u64)
}

// What the screen says, without the lent memory.
pub fn put_answer(reply: &mut Writer, answer: Answer)
    ensures { Puts reply.old reply.new (answer_text answer) }
{
    match answer {
        Answer::Plan { visits, before } => put_two(reply, b"plan", visits, before),
        Answer::None {
            visits,
            before,
            rows,
        } => put_three(reply, b"none", visits, before, rows),
        Answer::Unlisted {
            visits,
            before,
            rows,
        } => put_three(reply, b"unlisted", visits, before, rows),
        Answer::Stopped { visits, before } => put_two(reply, b"stopped", visits, before),
        Answer::Refused { number } => put_refused(reply, number),
    }
}

// A bar, and a space where the list after it is empty: the numbers of a list are each led by a space.
fn put_bar(reply: &mut Writer, length: usize)
    ensures { Puts reply.old reply.new (bar length) }
{
    if 0 < length {
        reply.put(b" |")
    } else {
        reply.put(b" | ")
    }
}

// The numbers of a list in lent room, led by a bar.
pub fn put_room<T: Decimal>(reply: &mut Writer, room: &[T])
    ensures { Puts reply.old reply.new (barred T.decimal room.now) }
{
    put_bar(reply, room.len());
    reply.put_list(room)
}

// The lent memory, each part led by a bar.
pub fn put_lent(reply: &mut Writer, timetable: &[i32], picks: &[u8], reasons: &[u8])
    ensures { Puts reply.old reply.new (lent_text timetable.now picks.now reasons.now) }
{
    put_room(reply, timetable);
    put_room(reply, picks);
    put_room(reply, reasons)
}

// What a reader says.
pub fn put_verdict(reply: &mut Writer, verdict: Verdict)
    ensures { Puts reply.old reply.new (verdict_text verdict) }
{
    match verdict {
        Verdict::Yes => reply.put(b"yes"),
        Verdict::No => reply.put(b"no"),
        Verdict::Refused { number } => put_refused(reply, number),
    }
}

// The lamp panel.
pub fn put_panel(reply: &mut Writer, panel: Panel)
    ensures { Puts reply.old reply.new (panel_text panel) }
{
    reply.put(b"lamps");
    put_next(reply, panel.number as u64);
    put_next(reply, panel.lit);
    put_next(reply, panel.total as u64);
    put_next(reply, panel.first as u64);
    reply.put_list(&panel.each)
}

// A slider's bound, or the refusal's number: a byte, as each refusal of a reply, so that every byte can be told.
pub fn put_bound(reply: &mut Writer, answer: Result<i32, u8>)
    ensures { Puts reply.old reply.new (bound_text answer) }
{
    match answer {
        Ok(bound) => {
            reply.put(b"bound ");
            reply.put_signed(bound)
        }
        Err(number) => put_refused(reply, number),
    }
}

// The problem that a script says: its events, its triples and its clause counts, each list led by its length.
pub fn put_problem(reply: &mut Writer, n: u32, triples: &[i32], counts: &[u32])
    ensures { Puts reply.old reply.new (problem_text n triples.now counts.now) }
{
    reply.put(b"problem");
    put_next(reply, n as u64);
    put_next(reply, triples.len() as u64);
    reply.put_list(triples);
    put_next(reply, counts.len() as u64);
    reply.put_list(counts)
}

// A script's refusal: its number and its place.
pub fn put_refused_at(reply: &mut Writer, number: u8, place: usize)
    ensures { Puts reply.old reply.new (refused_at_text number place) }
{
    put_refused(reply, number);
    put_next(reply, place as u64)
}

// A script's refusal as a program prints it: its number, and its place where it has one. The number is a byte, as in each reply.
pub fn put_script_refused(line: &mut Writer, number: u8, place: usize)
    ensures { Puts line.old line.new (script_refused_text number place) }
{
    if number == WITH_PLACE {
        put_refused_at(line, number, place)
    } else {
        put_refused(line, number)
    }
}

// The length of a text that was written.
pub fn put_length(reply: &mut Writer, length: usize)
    ensures { Puts reply.old reply.new (length_text length) }
{
    reply.put(b"text");
    put_next(reply, length as u64)
}

// A standing day after an addition: the addition's refusal or 0, that of reading the day off or 0, the day's entries and the timetable.
pub fn put_day(reply: &mut Writer, number: u8, off: u8, entries: &[i32], timetable: &[i32])
    ensures { Puts reply.old reply.new (day_text number off entries.now timetable.now) }
{
    put_two(reply, b"day", number as u64, off as u64);
    put_room(reply, entries);
    put_room(reply, timetable)
}
