// The museum's table: one request a line on standard input, one reply a line on standard output, until the input ends.
#![tactic(auto)]

ghost use Rattle.std.specs.Prelude.{◌+◌, ◌≤◌, ◌<◌, length, IfSome};

mod operations;

use dialogue::Writer;
use std::io::{Read, Stdin};

// Where replies are written.
const STANDARD_OUTPUT: i32 = 1;

// The most bytes that one read asks for.
const BLOCK: usize = 65536;

// The memory that is lent to a request: the lengths are the limits of its counts. It is fixed: there is no heap.
#[derive(Drop)]
struct Lent {
    triples: [i32; 256],
    counts: [u32; 64],
    timetable: [i32; 64],
    picks: [u8; 64],
    reasons: [u8; 65536],
}

// Reads more of the input into text from `at` on, and answers how many bytes came: none where the input has ended.
fn read_more(mut input: Stdin, text: &mut [u8], at: usize) -> usize
    requires { at ≤ length text.old }
    ensures { at + result ≤ length text.old }
{
    let to = at + BLOCK.min(text.len() - at);
    input.read(&mut text[at..to]).unwrap_or(0)
}

// The reply to a line, without its line feed; none where the line is malformed.
fn answer(line: &[u8], lent: &mut Lent, reply: &mut Writer) -> Option<()> {
    let at = dialogue::until(line, 0, b' ');
    match &line[..at] {
        b"plan" => operations::plan(line, at, lent, reply),
        b"reasons" => operations::reasons(line, at, lent, reply),
        b"times" => operations::times(line, at, lent, reply),
        b"lamps" => operations::lamps(line, at, lent, reply),
        b"slide" => operations::slide(line, at, reply),
        b"script" => operations::script(line, at, lent, reply),
        b"write" => operations::write(line, at, lent, reply),
        b"day" => operations::day(line, at, lent, reply),
        _ => None,
    }
}

// Answers a line; one that is too long is none, and malformed whatever it holds. Each reply is written out at once.
fn serve_line(line: Option<&[u8]>, lent: &mut Lent, room: &mut [u8]) {
    let mut reply = Writer::new(room);
    let answered = line.and_then(|line| answer(line, lent, &mut reply));
    if answered.is_none() {
        reply.at = 0;
        reply.put(b"malformed");
    }
    reply.put(b"\n");
    io::write_all(STANDARD_OUTPUT, reply.text());
}

// Answers each line of text that ends there, and gives the place after the last of them, if there is one. The first bytes, up to `from`,
// hold no line feed, and the first line may be too long. Of the pieces of `split` a proof does not know where they stand.
fn serve_lines(
    text: &[u8],
    from: usize,
    too_long: bool,
    lent: &mut Lent,
    reply: &mut [u8],
) -> Option<usize>
    requires { from ≤ length text.now }
    ensures { IfSome result (λ start. start ≤ length text.now) }
{
    let mut served = None;
    let mut end = dialogue::until(text, from, b'\n');
    while end < text.len() {
        let line = match served {
            Some(start) => Some(&text[start..end]),
            None if too_long => None,
            None => Some(&text[..end]),
        };
        serve_line(line, lent, reply);
        served = Some(end + 1);
        end = dialogue::until(text, end + 1, b'\n');
    }
    served
}

// Keeps what remains of text, up to `end`, at its front: after the last line that ended, if one did, and else the line that goes on. Answers
// how many bytes are kept; none of a line that is too long, as one that fills the text is.
fn keep(text: &mut [u8], served: Option<usize>, end: usize, too_long: bool) -> Option<usize>
    requires from { IfSome served (λ start. start ≤ end) }
    requires to { end ≤ length text.old }
    ensures { IfSome result (λ bytes. bytes ≤ length text.old) }
{
    if let Some(start) = served {
        text.copy_within(start..end, 0);
        return Some(end - start);
    }
    if too_long || end == text.len() {
        return None;
    }
    Some(end)
}

// Talks until the input ends; a last line may end with it instead of a line feed. What is kept of a line that has not ended stands at the
// front of the text, and is none where the line is too long. A proved loop has to end, and nothing says that the input does: so the turns
// are counted, up to a number that no run reaches.
fn talk(input: Stdin, text: &mut [u8], lent: &mut Lent, reply: &mut [u8]) {
    let mut kept = Some(0);
    for _ in 0..u64::MAX {
        let at = kept.unwrap_or(0);
        let bytes = read_more(input, text, at);
        if bytes == 0 {
            break;
        }
        let end = at + bytes;
        let served = serve_lines(&text[..end], at, kept.is_none(), lent, reply);
        kept = keep(text, served, end, kept.is_none());
    }
    match kept {
        Some(0) => {}
        Some(bytes) => serve_line(Some(&text[..bytes]), lent, reply),
        None => serve_line(None, lent, reply),
    }
}

fn main(rt: HostRuntime) {
    let mut text = [0; 1048577];
    let mut lent = Lent {
        triples: [0; 256],
        counts: [0; 64],
        timetable: [0; 64],
        picks: [0; 64],
        reasons: [0; 65536],
    };
    // as long as the longest reply, that of a plan with all of it lent
    let mut reply = [0; 266240];
    talk(rt.stdin(), &mut text, &mut lent, &mut reply);
}
