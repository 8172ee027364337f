// Reads a script from standard input and prints the same problem written anew, its events named e0, e1 and so on; or one line: `refused NUMBER`
// (20 with its place) or `too long`.
#![tactic(auto)]

ghost use Rattle.std.specs.Prelude.{◌≡◌, ◌≤◌, length, take};
ghost use Rattle.dialogue.specs.Written.{written, written_to};
ghost use Rattle.grammar.specs.Grammar.{bytes};
ghost use Rattle.script.specs.Text.{longest_text};
ghost use Rattle.rewrite.specs.Says.{line_of, rewriting};

use dialogue::Writer;
use exchange::put_script_refused;
use script::{BYTES, LONGEST_TEXT};

// The line of a text that is too long, at the front of `out`, and how long it is.
fn put_too_long(out: &mut [u8]) -> usize
    ensures { (out.new ≡ written out.old 0 (bytes "too long\n")) × (result ≡ written_to out.old 0 (bytes "too long\n")) }
{
    let mut line = Writer::new(out);
    line.put(b"too long\n");
    line.at
}

// The line of a refusal, at the front of `out`, and how long it is.
fn put_refusal(out: &mut [u8], number: u8, place: usize) -> usize
    ensures { (out.new ≡ written out.old 0 (line_of number place)) × (result ≡ written_to out.old 0 (line_of number place)) }
{
    let mut line = Writer::new(out);
    put_script_refused(&mut line, number, place);
    line.put(b"\n");
    line.at
}

// Puts what is printed for a text at the front of `out`, and answers how long it is.
fn rewrite(text: &[u8], out: &mut [u8]) -> usize
    requires { longest_text ≤ length out.old }
    ensures upper_bound { result ≤ length out.old }
    ensures after { take result out.new ≡ rewriting text.now }
{
    if BYTES < text.len() {
        return put_too_long(out);
    }
    match planner::read_script(text) {
        Ok(script) => {
            // what was read is accepted, and there is room for every text
            planner::write_script(script.n, script.triples(), script.counts(), out).unwrap_or(0)
        }
        Err(refused) => put_refusal(out, refused.refusal.into(), refused.place),
    }
}

fn main() {
    let mut text = [0u8; BYTES + 1];
    let got = io::read_full(0, &mut text);
    let mut out = [0u8; LONGEST_TEXT];
    let length = rewrite(&text[..got], &mut out);
    io::write_all(1, &out[..length]);
}
