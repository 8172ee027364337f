// Prints worked days that follow the slider (02, A8), one to a line: what was asked, the number that was answered, 0 or the refusal's, and the day or the
// timetable as it is left. Of a day the first n rows of n entries are shown, each row led by a bar, an entry that is none as a dash.
#![tactic(auto)]

ghost use Rattle.std.specs.Prelude.{◌≤◌, ◌<◌};

use dialogue::Writer;
use problem::EVENTS;
use standing::{Answered, Day, ENTRIES};

// What an entry holds where there is no distance.
const NONE: i32 = 2147483647;

// The most elements that are lent for a timetable.
const TIMES: usize = 6;

// A space and a whole number at its longest: a sign and ten digits.
const WHOLE: usize = 12;

// Writes a space and a whole number.
fn write_whole(z: i32) {
    let mut room = [0; WHOLE];
    let mut text = Writer::new(&mut room);
    text.put(b" ");
    text.put_signed(z);
    io::write_all(1, text.text());
}

// Writes a space and an entry.
fn write_entry(z: i32) {
    if z == NONE {
        io::write_all(1, b" -");
    } else {
        write_whole(z);
    }
}

// Writes the entries of a row.
fn write_row(row: &[i32]) {
    io::write_all(1, b" |");
    for &z in row {
        write_entry(z);
    }
}

// Writes the first n rows of n entries; none where there are more events than there may be. Rows by number: tried: `chunks_exact`, of whose rows
// the check did not find the length.
fn write_rows(n: usize, entries: &[i32; ENTRIES]) {
    if n <= EVENTS {
        for u in 0..n {
            write_row(&entries[u * EVENTS..u * EVENTS + n]);
        }
    }
}

// Writes what was answered: the number, and the day.
fn write_answered(answered: &Answered) {
    io::write_all(1, b": ");
    io::print_decimal(1, u64::from(answered.number));
    write_rows(answered.day.n as usize, &answered.day.entries);
    io::write_all(1, b"\n");
}

// Writes what the lines after it are about.
fn write_title(title: &[u8]) {
    io::write_all(1, title);
    io::write_all(1, b"\n");
}

// Begins a day of n events, and shows it.
fn fresh(n: u32) -> Day {
    io::write_all(1, b"  a fresh day of ");
    io::print_decimal(1, u64::from(n));
    let begun = planner::fresh_day(n);
    write_answered(&begun);
    begun.day
}

// Adds a fact or its opposite to a day, and shows the day afterwards.
fn add_to(day: Day, x: i32, y: i32, c: i32, opposite: bool) -> Day {
    io::write_all(1, b"  add");
    if opposite {
        io::write_all(1, b" the opposite of");
    }
    write_whole(x);
    write_whole(y);
    write_whole(c);
    let added = planner::add_fact(day, x, y, c, opposite);
    write_answered(&added);
    added.day
}

// Adds a fact.
fn add(day: Day, x: i32, y: i32, c: i32) -> Day {
    add_to(day, x, y, c, false)
}

// Adds the opposite of a fact.
fn add_opposite(day: Day, x: i32, y: i32, c: i32) -> Day {
    add_to(day, x, y, c, true)
}

// Reads a day off into lent elements, and shows them.
fn read_into(day: Day, times: &mut [i32]) {
    let number = planner::read_day(day, times);
    io::write_all(1, b"  read off into ");
    io::print_decimal(1, times.len() as u64);
    io::write_all(1, b": ");
    io::print_decimal(1, u64::from(number));
    write_row(times);
    io::write_all(1, b"\n");
}

// Reads a day off into so many elements, filled with 7s before.
fn read_off(day: Day, elements: usize)
    requires { elements ≤ TIMES }
{
    let mut times = [7i32; TIMES];
    read_into(day, &mut times[..elements]);
}

// A day with another entry from one event to another.
fn with_entry(mut day: Day, from: usize, to: usize, z: i32) -> Day
    requires { (from < EVENTS) × (to < EVENTS) }
{
    day.entries[from * EVENTS + to] = z;
    day
}

// A lent day of three events: the distances from 0 to 1, from 1 to 2 and from 0 to 2.
fn three(first: i32, second: i32, whole: i32) -> Day {
    let begun = planner::fresh_day(3);
    let day = with_entry(begun.day, 0, 1, first);
    let day = with_entry(day, 1, 2, second);
    with_entry(day, 0, 2, whole)
}

// The day of the facts of D2's plan.
fn followed() -> Day {
    write_title(b"The facts of D2's plan, one after another");
    let day = fresh(4);
    let day = add(day, 2, 1, 6);
    let day = add(day, 3, 0, -5);
    let day = add(day, 0, 2, -2);
    read_off(day, 4);
    day
}

// More facts on that day: one again, two of D2 that make a cycle below 0, a cycle of sum 0, and opposites.
fn more_facts(day: Day) {
    write_title(b"More facts after them");
    let day = add(day, 0, 2, -2);
    let day = add(day, 2, 0, 1);
    let day = add(day, 1, 2, -7);
    let day = add(day, 2, 0, 2);
    let day = add_opposite(day, 2, 1, 6);
    let day = add_opposite(day, 1, 3, 9);
    read_off(day, 6);
    let day = add_opposite(day, 1, 3, 100000);
    read_off(day, 6);
}

// Facts that are refused, some with a fault that comes later in the order.
fn refused_facts(day: Day) {
    write_title(b"Refused facts, and the day as it was");
    let day = add(day, 4, 0, 1);
    let day = add(day, 0, -1, 1);
    let day = add(day, 4, 4, 1);
    let day = add(day, 1, 1, 0);
    let day = add(day, 1, 1, 100001);
    let day = add(day, 0, 1, 100001);
    let day = add_opposite(day, 1, 0, -100001);
    add(day, 1, 2, -100001);
}

// Reading off: with room to spare, and with too little.
fn read_offs(day: Day) {
    write_title(b"That day read off");
    read_off(day, 6);
    read_off(day, 4);
    read_off(day, 3);
    read_off(day, 0);
}

// A lent day that is refused before anything else is looked at: neither the fact, of an event past the last, nor the room, for two times, would do.
fn refused_day(title: &[u8], day: Day) {
    write_title(title);
    let day = add(day, 3, 0, 1);
    read_off(day, 2);
}

// A lent day with a way from 0 over 1 to 2 of length 12, and an entry beside it.
fn detour(title: &[u8], whole: i32) {
    write_title(title);
    let day = add(three(5, 7, whole), 2, 1, 6);
    read_off(day, 3);
}

// Lent days: a table, and those that are none.
fn lent_days() {
    detour(b"A detour shorter than an entry by one", 13);
    detour(b"The same with the entry right", 12);
    refused_day(b"None where a detour leads", three(5, 7, NONE));
    refused_day(
        b"An event 1 from itself",
        with_entry(three(5, 7, 12), 1, 1, 1),
    );
    refused_day(
        b"An event none from itself",
        with_entry(three(5, 7, 12), 2, 2, NONE),
    );
    refused_day(
        b"An entry for an event past the last",
        with_entry(three(5, 7, 12), 3, 3, 0),
    );
    refused_day(b"An entry too far", three(2300024, NONE, NONE));
    refused_day(b"An entry too far below 0", three(-2300024, NONE, NONE));
}

// New entries that reach the range's ends, and that would leave it; a cycle below 0 comes before that.
fn far_entries() {
    write_title(b"The farthest entry");
    let day = add(three(2300023, NONE, NONE), 2, 1, 1);
    add(day, 2, 1, 0);
    write_title(b"The farthest entry below 0");
    let day = add(three(-2300023, NONE, NONE), 2, 1, -1);
    let day = add(day, 0, 1, -1);
    let day = add(day, 2, 1, 0);
    read_off(day, 3);
}

// As few events as there may be, and too few and too many.
fn sizes() {
    write_title(b"Sizes");
    read_off(fresh(1), 2);
    read_off(fresh(0), 2);
    read_off(fresh(25), 2);
    let none = Day {
        n: 0,
        entries: [NONE; ENTRIES],
    };
    refused_day(b"A lent day of no events", none);
    let many = Day {
        n: 25,
        entries: [NONE; ENTRIES],
    };
    refused_day(b"A lent day of 25 events", many);
}

fn main() {
    let day = followed();
    more_facts(day);
    refused_facts(day);
    read_offs(day);
    lent_days();
    far_entries();
    sizes();
}
