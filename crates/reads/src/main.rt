// Prints what the two readers say of the worked days' lists and timetables, and of lists and timetables that are wrong in one place, one to a line.
#![tactic(auto)]

use dialogue::Writer;
use meaning::Verdict;
use problem::{EVENTS, ROW};

// The bytes of D4's rows, and 4 more.
const THREE_ROWS: usize = 3 * ROW;

const ROOM: usize = THREE_ROWS + 4;

// What is said at its longest.
const SAID: usize = 16;

// Writes what was read and what was said of it.
fn show(asked: &[u8], said: Verdict) {
    let mut room = [0; SAID];
    let mut text = Writer::new(&mut room);
    exchange::put_verdict(&mut text, said);
    io::write_all(1, asked);
    io::write_all(1, b": ");
    io::write_all(1, text.text());
    io::write_all(1, b"\n");
}

// Shows a list against two alternatives between events 0 and 1, (0, 1, c) and (1, 0, d), a clause each.
fn show_pair(asked: &[u8], c: i32, d: i32, list: &[u8]) {
    let triples = [0, 1, c, 1, 0, d];
    let counts = [1u32, 2];
    show(asked, readers::read_reasons(2, &triples, &counts, list));
}

// D4's rows with the cycle a, b, and 4 bytes of room more.
fn rows_of(a: u8, b: u8) -> [u8; ROOM] {
    let mut list = [255u8; ROOM];
    list[0] = 240;
    list[ROW] = 201;
    list[2 * ROW] = a;
    list[2 * ROW + 1] = b;
    list
}

// D4 and D8: the list that is left, and lists that are wrong in one place.
fn show_pairs() {
    let good = rows_of(1, 0);
    show_pair(b"D4", -1, -1, &good);
    show_pair(b"D4, its rows and no more", -1, -1, &good[0..THREE_ROWS]);
    show_pair(b"D4, a byte short", -1, -1, &good[0..THREE_ROWS - 1]);
    show_pair(b"D4, no list", -1, -1, &good[0..0]);
    show_pair(b"D8, a cycle of sum 0", 5, -5, &good);
    show_pair(b"D8 with -6", 5, -6, &good);
    let turned = rows_of(0, 1);
    show_pair(b"D4, the cycle from its other arc", -1, -1, &turned);
    let open = rows_of(0, 255);
    show_pair(b"D4, an arc that leads elsewhere", -1, -1, &open);
    let foreign = rows_of(0, 65);
    show_pair(b"D4, an opposite that is no fact", -1, -1, &foreign);
    let mut onward = rows_of(1, 0);
    onward[ROW] = 240;
    show_pair(b"D4, onward to the cycle", -1, -1, &onward);
    onward[2 * ROW] = 240;
    onward[2 * ROW + 1] = 255;
    show_pair(b"D4, onward where no clause is left", -1, -1, &onward);
    let mut late = rows_of(1, 0);
    late[ROOM - 1] = 254;
    show_pair(
        b"D4, another byte than 255 after the reading",
        -1,
        -1,
        &late,
    );
    let mut filled = rows_of(1, 0);
    filled[THREE_ROWS - 1] = 0;
    show_pair(b"D4, a number after a row's 255s", -1, -1, &filled);
    let mut chosen = rows_of(1, 0);
    chosen[ROW] = 200;
    show_pair(
        b"D4, 200 + d for the clause that is chosen",
        -1,
        -1,
        &chosen,
    );
    let mut past = rows_of(1, 0);
    past[ROW] = 202;
    show_pair(b"D4, 200 + d for a clause that is not there", -1, -1, &past);
}

// D5 to D7: one event.
fn show_single() {
    let loops = [0, 0, -1];
    let one = [1u32];
    let mut list = [255u8; 2 * ROW];
    list[0] = 200;
    list[ROW] = 0;
    show(b"D5", readers::read_reasons(1, &loops, &one, &list));
    let times = [0];
    show(
        b"D5, its time",
        readers::read_timetable(1, &loops, &one, &times),
    );
    show(
        b"D5, no time",
        readers::read_timetable(1, &loops, &one, &times[..0]),
    );
    let empty = [0u32];
    let mut mark = [255u8; ROW + 4];
    mark[0] = 200;
    show(b"D7", readers::read_reasons(1, &loops[..0], &empty, &mark));
    mark[0] = 240;
    show(
        b"D7, onward",
        readers::read_reasons(1, &loops[..0], &empty, &mark),
    );
    show(
        b"D6, no clauses",
        readers::read_reasons(3, &loops[..0], &empty[..0], &mark),
    );
    show(
        b"D10, an event too many",
        readers::read_reasons(EVENTS as u32 + 1, &loops[..0], &empty[..0], &mark),
    );
}

// The day whose first clause has one alternative twice: the second is read over the opposite of the first.
fn show_opposite() {
    let triples = [0, 1, -1, 0, 1, -1, 1, 0, 0];
    let counts = [2u32, 3];
    let mut list = [255u8; 4 * ROW];
    list[0] = 240;
    list[ROW] = 201;
    list[2 * ROW] = 2;
    list[2 * ROW + 1] = 0;
    list[THREE_ROWS] = 1;
    list[THREE_ROWS + 1] = 64;
    show(
        b"an opposite as a fact",
        readers::read_reasons(2, &triples, &counts, &list),
    );
    list[THREE_ROWS + 1] = 0;
    show(
        b"an alternative as a fact where it was passed over",
        readers::read_reasons(2, &triples, &counts, &list),
    );
    list[2 * ROW] = 1;
    list[2 * ROW + 1] = 64;
    list[THREE_ROWS + 1] = 64;
    show(
        b"an opposite as a fact where its alternative was chosen",
        readers::read_reasons(2, &triples, &counts, &list),
    );
}

// Shows the times of events 0 and 1 against one alternative, (0, 1, c).
fn show_times(asked: &[u8], c: i32, x: i32, y: i32) {
    let triples = [0, 1, c];
    let counts = [1u32];
    let times = [x, y];
    show(asked, readers::read_timetable(2, &triples, &counts, &times));
}

// D1 and D10: timetables, also at the ends of 32 bits and too short.
fn show_timetables() {
    show_times(b"D1", -30, -30, 0);
    show_times(b"D1, a minute late", -30, -29, 0);
    show_times(b"D1 at the ends", -30, -2147483648, 2147483647);
    show_times(b"D10", 100000, 0, 0);
    show_times(b"D10 at the ends", 100000, 2147483647, -2147483648);
    show_times(b"D10 with 100,001", 100001, 0, 0);
    let triples = [0, 1, -30];
    let counts = [1u32];
    let times = [-30];
    show(
        b"D1, one time",
        readers::read_timetable(2, &triples, &counts, &times),
    );
    show(
        b"An event too many, one time",
        readers::read_timetable(EVENTS as u32 + 1, &triples, &counts, &times),
    );
}

fn main() {
    show_pairs();
    show_single();
    show_opposite();
    show_timetables();
}
