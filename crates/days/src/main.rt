// Prints the worked days of 01, as A4, A6 and A7 amend them, one to a line: the answer, and the lent timetable, picks and reasons as they are left. All of
// that is filled with 7s before each call, so that what was not settled would show.
#![tactic(auto)]

ghost use Rattle.std.specs.Prelude.{◌≡◌, ◌*◌, ◌^◌, ◌<◌, ◌≤◌, length};
ghost use Rattle.meaning.specs.Limits.{most_events};

use dialogue::Writer;
use problem::{EVENTS, ROW};

// How many elements are lent: the timetable, the picks, the reasons, and the reasons of D4's second half.
const TIMES: usize = 6;

const PICKS: usize = 4;

const ROOM: usize = 7 * ROW;

const TIGHT: usize = 3 * ROW - 1;

// What is lent for as many events as there may be: a time more than events, a pick more than the ring has arcs, and a row more than it gives.
const MANY_TIMES: usize = EVENTS + 1;

const MANY_PICKS: usize = EVENTS + 1;

const MANY_ROWS: usize = (EVENTS + 2) * ROW;

// The numbers of an arc for each of so many events.
const NUMBERS: usize = 3 * EVENTS;

// The allowance of 01's days.
const ALLOWANCE: u32 = 1000;

// A reply at its longest.
const REPLY: usize = 4096;

// Plans a day over T times, P picks and R bytes of reasons that are lent, and shows it.
fn show_lent<const T: usize, const P: usize, const R: usize>(
    name: &[u8],
    n: u32,
    triples: &[i32],
    counts: &[u32],
    allowance: u32,
)
    requires { (T * 4 < 2 ^ 63) × (P < 2 ^ 63) × (R < 2 ^ 63) }
{
    let mut times = [7; T];
    let mut picks = [7; P];
    let mut reasons = [7; R];
    let answer = planner::plan(
        n,
        triples,
        counts,
        allowance,
        &mut times,
        &mut picks,
        &mut reasons,
    );
    let mut room = [0; REPLY];
    let mut reply = Writer::new(&mut room);
    exchange::put_answer(&mut reply, answer);
    exchange::put_lent(&mut reply, &times, &picks, &reasons);
    io::write_all(1, name);
    io::write_all(1, b": ");
    io::write_all(1, reply.text());
    io::write_all(1, b"\n");
}

// A day with an allowance.
fn show_in(name: &[u8], n: u32, triples: &[i32], counts: &[u32], allowance: u32) {
    show_lent::<TIMES, PICKS, ROOM>(name, n, triples, counts, allowance);
}

// A day with room for a byte less than three rows.
fn show_tight(name: &[u8], n: u32, triples: &[i32], counts: &[u32]) {
    show_lent::<TIMES, PICKS, TIGHT>(name, n, triples, counts, ALLOWANCE);
}

// A day of as many events as there may be.
fn show_many(name: &[u8], triples: &[i32], counts: &[u32]) {
    show_lent::<MANY_TIMES, MANY_PICKS, MANY_ROWS>(name, EVENTS as u32, triples, counts, ALLOWANCE);
}

// A day with the allowance of 01's days.
fn show(name: &[u8], n: u32, triples: &[i32], counts: &[u32]) {
    show_in(name, n, triples, counts, ALLOWANCE);
}

// D1 to D4.
fn first_days() {
    let d1 = [0, 1, -30];
    let one = [1u32];
    show(b"D1", 2, &d1, &one);
    let d2 = [2, 1, 6, 0, 3, 4, 2, 0, 1, 3, 0, -5, 0, 2, -2, 1, 2, -7];
    let pairs = [2u32, 4, 6];
    show(b"D2", 4, &d2, &pairs);
    show_in(b"D3, allowance 4", 4, &d2, &pairs, 4);
    show_in(b"D3, allowance 0", 4, &d2, &pairs, 0);
    let d4 = [0, 1, -1, 1, 0, -1];
    let two = [1u32, 2];
    show(b"D4", 2, &d4, &two);
    show_tight(b"D4, a byte short of three rows", 2, &d4, &two);
}

// D5 to D8.
fn middle_days() {
    let one = [1u32];
    let two = [1u32, 2];
    let d5 = [0, 0, -1];
    show(b"D5", 1, &d5, &one);
    let d5b = [0, 0, 0];
    show(b"D5 with 0,0,0", 1, &d5b, &one);
    show(b"D6", 3, &d5[0..0], &one[0..0]);
    let empty = [0u32];
    show(b"D7", 1, &d5[0..0], &empty);
    let d8 = [0, 1, 5, 1, 0, -5];
    show(b"D8", 2, &d8, &two);
    let d8b = [0, 1, 5, 1, 0, -6];
    show(b"D8 with -6", 2, &d8b, &two);
}

// D9, D10 and the bounds.
fn last_days() {
    let d9 = [0, 1, -10, 1, 2, -3, 0, 1, -5];
    let ends = [1u32, 3];
    show(b"D9", 3, &d9, &ends);
    let d10 = [0, 1, -1, 0, 1, -1, 1, 0, 0];
    let more = [2u32, 3];
    show(b"D10", 2, &d10, &more);
    let one = [1u32];
    let taken = [0, 1, 100000];
    show(b"Bound 100,000", 2, &taken, &one);
    let refused = [0, 1, 100001];
    show(b"Bound 100,001", 2, &refused, &one);
    show(b"An event too many", EVENTS as u32 + 1, &taken, &one);
}

// A7: a heavier arc is named for its smaller number, and two arcs where three sum further below 0.
fn days_of_reasons() {
    let parallel = [1, 0, 8, 0, 1, -4, 1, 0, 3, 0, 1, -9];
    let ends = [2u32, 3, 4];
    show(b"Two arcs from one event to another", 2, &parallel, &ends);
    let fewer = [2, 1, -50, 1, 0, -1, 0, 2, -49, 1, 0, -1, 0, 1, 0];
    let more = [1u32, 3, 4, 5];
    show(b"Two arcs or three", 3, &fewer, &more);
}

// Each event at most c minutes after the next, in a clause of its own, as many as there are clauses.
fn put_ahead(triples: &mut [i32], counts: &mut [u32], c: i32)
    requires { (length triples.old ≡ 3 * length counts.old) × (length counts.old ≤ most_events) }
{
    for (e, (triple, count)) in triples.chunks_exact_mut(3).zip(counts).enumerate() {
        triple[0] = e as i32;
        triple[1] = e as i32 + 1;
        triple[2] = c;
        *count = e as u32 + 1;
    }
}

// An event against itself, with each fault that its place in the order parts it from: 4 and 5 come before 12, and 6, 7 and 8 after it.
fn days_with_12() {
    let one = [1u32];
    let two = [1u32, 2];
    let alone = [1, 1, 0];
    show(b"4 with 12", 2, &alone, &two[1..]);
    let named = [1, 1, 0, 0, 2, 0];
    show(b"5 with 12", 2, &named, &two);
    let bounded = [0, 1, 100001, 1, 1, 0];
    show(b"12 with 6", 2, &bounded, &two);
    show_in(b"12 with 7", 2, &alone, &one, 1000001);
    show_lent::<1, PICKS, ROW>(b"12 with 8", 2, &alone, &one, ALLOWANCE);
}

// As many events as there may be: without a clause; in a chain, each 100,000 minutes before the next; in a ring, none after the next, and the
// last a minute before the first.
fn widest_days() {
    let mut chain = [0i32; NUMBERS - 3];
    let mut links = [0u32; EVENTS - 1];
    show_many(b"As many events as there may be", &chain[..0], &links[..0]);
    put_ahead(&mut chain, &mut links, -100000);
    show_many(b"A chain of them", &chain, &links);
    let mut ring = [0i32; NUMBERS];
    let mut arcs = [0u32; EVENTS];
    put_ahead(&mut ring, &mut arcs, 0);
    ring[NUMBERS - 2] = 0;
    ring[NUMBERS - 1] = -1;
    show_many(b"A ring of them", &ring, &arcs);
}

fn main() {
    first_days();
    middle_days();
    last_days();
    days_of_reasons();
    days_with_12();
    widest_days();
}
