// The shortest distance between every pair of events, or none, under the facts so far (02, A8; 002), in naturals and in a lent slice: the
// table from place `base` on has its entry [u][v] at base + u * w + v, a distance z as z + 2,300,024.
#![tactic(auto)]

ghost use Rattle.std.specs.Prelude.{◌≡◌, true, List, ◌∷◌, ℕ, ◌+◌, ◌-◌, ◌*◌, ◌^◌, ◌<◌, ◌≤◌, leb, length, take};
ghost use Rattle.meaning.specs.Limits.{most_events};
ghost use Rattle.meaning.specs.Problem.{Alternative};
ghost use Rattle.meaning.specs.Decision.{sound, least};
ghost use Rattle.problem.specs.Arcs.{bias, at};
ghost use Rattle.distances.specs.Distances.{DayOf};
ghost use Rattle.distances.specs.Numbers.{middle, turn, shift, lowered, blocked, table_at, minutes_of, Stands, Holds};
ghost use Rattle.distances.specs.Rows.{Begun, Clear, RowLowered, Room, Extended};

use problem::{BIAS, EVENTS, Edge};

// The number of the distance 0.
pub const MIDDLE: u32 = (EVENTS as u32 - 1) * BIAS + 1;

// The number of none. A number and no Option: an entry of the papers is a number too, none's among them (02, A8), and specs/Numbers
// (`distance`, `lowered`) reads an entry of a table as this number.
pub const NO_WAY: u32 = 1073741824;

// What a way over a fact adds too much: the distance 0 and the bound 0 in numbers.
const TURN: u32 = MIDDLE + BIAS;

// What stands for the way over a fact whose start is not reached: a number too, as specs/Numbers (`shift`) reads it.
const BLOCKED: u32 = 2147483648;

// Where a table lies in a slice: n rows of n entries from place `base` on, w places from row to row. The slice stays outside: `extend` goes
// from one table to another of the same slice.
#[derive(Clone, Copy)]
pub struct Grid {
    pub base: usize,
    pub w: usize,
    pub n: usize,
    ghost wide: { n ≤ w },
}

impl Grid {
    // The place of the entry from u to v.
    fn place(self, u: usize, v: usize) -> usize
        requires { (self.base + self.n * self.w < 2 ^ 64) × (u < self.n) × (v < self.n) }
        ensures { result ≡ self.base + (u * self.w + v) }
    {
        self.base + (u * self.w + v)
    }
}

// A fact (x, y, c), c as b.
#[derive(Clone, Copy)]
pub struct Fact {
    pub x: usize,
    pub y: usize,
    pub b: u32,
    ghost bounded: { b < 2 * bias },
}

impl Fact {
    // An arc as a fact. No `From`: an edge's bound may be any number.
    pub fn of(edge: Edge) -> Fact
        requires { edge.b < 2 * bias }
        ensures { (result.x ≡ edge.x) × (result.y ≡ edge.y) × (result.b ≡ edge.b) }
    {
        Fact {
            x: edge.x as usize,
            y: edge.y as usize,
            b: edge.b,
        }
    }
}

// What the way to a fact's start, of number p, and the fact, of bound b, add.
#[tactic(auto, unfolding(crate::specs::Numbers::shift))]
fn shift_of(p: u32, b: u32) -> u32
    requires { b < 2 * bias }
    ensures { (result ≡ shift p b) × (result ≤ blocked) }
{
    if p < NO_WAY { p + b } else { BLOCKED }
}

// A number lowered by the way that adds t to e.
#[tactic(auto, unfolding(crate::specs::Numbers::lowered))]
fn lower(o: u32, t: u32, e: u32) -> u32
    requires { t ≤ blocked }
    ensures { result ≡ lowered o t e }
{
    if e < NO_WAY {
        o.min((e + t).saturating_sub(TURN))
    } else {
        o
    }
}

// The row at `to` becomes the row at `from` lowered by the row at `past`.
fn lower_row(s: &mut [u32], from: usize, to: usize, past: usize, n: usize, t: u32)
    requires { (from + n ≤ length s.old) × (to + n ≤ length s.old) × (past + n ≤ length s.old) × (t ≤ blocked) × Clear from to n × Clear past to n }
    ensures { RowLowered s.old s.new from to past n t }
{
    for v in 0..n {
        s[to + v] = lower(s[from + v], t, s[past + v]);
    }
}

// Whether a new fact has a timetable with the facts of the day.
pub fn fits_with(s: &[u32], day: Grid, fact: Fact) -> bool
    requires { (day.base + day.n * day.w ≤ length s.now) × (fact.x < day.n) × (fact.y < day.n) }
    ensures numbers { result ≡ leb turn (at s.now (day.base + (fact.x * day.w + fact.y)) + fact.b) }
    ensures decides { (fs : List Alternative) (a : Alternative) → Stands fact.x fact.y fact.b a → DayOf day.n fs (table_at s.now day.base day.w) → result ≡ sound (a ∷ fs) }
{
    TURN <= s[day.place(fact.x, fact.y)].saturating_add(fact.b)
}

// The table at `to` becomes the day with one fact more; where they are one table, the fact has to fit.
pub fn extend(s: &mut [u32], day: Grid, to: usize, fact: Fact)
    requires { (day.base + day.n * day.w ≤ length s.old) × (to + day.n * day.w ≤ length s.old) × (fact.x < day.n) × (fact.y < day.n) × (day.n ≤ most_events) × Room s.old day.base to day.w day.n fact.x fact.y fact.b }
    ensures numbers { Extended s.old s.new day.base to day.w day.n fact.x fact.y fact.b }
    ensures day { (fs : List Alternative) (a : Alternative) → Stands fact.x fact.y fact.b a → Holds s.old day.base day.w day.n fs → sound (a ∷ fs) ≡ true → Holds s.new to day.w day.n (a ∷ fs) }
{
    let past = day.base + fact.x * day.w;
    for u in 0..day.n {
        let t = shift_of(s[day.place(u, fact.y)], fact.b);
        let row = u * day.w;
        lower_row(s, day.base + row, to + row, past, day.n, t);
    }
}

// The table becomes the day of no facts.
pub fn begin(s: &mut [u32], day: Grid)
    requires { day.base + day.n * day.w ≤ length s.old }
    ensures { Begun s.old s.new day.base day.w day.n }
{
    s[day.base..day.base + day.n * day.w].fill(NO_WAY);
    for u in 0..day.n {
        s[day.place(u, u)] = MIDDLE;
    }
}

// The minutes before closing of event v in the latest timetable.
fn latest_of(s: &[u32], day: Grid, v: usize) -> u32
    requires { (day.base + day.n * day.w ≤ length s.now) × (v < day.n) }
    ensures { result ≡ minutes_of s.now day.base day.w v day.n }
{
    let mut m = 0u32;
    for u in 0..day.n {
        m = m.max(MIDDLE.saturating_sub(s[day.place(u, v)]));
    }
    m
}

// The latest timetable of the day's facts, in minutes before closing.
pub fn latest(s: &[u32], day: Grid) -> [u32; EVENTS]
    requires { (day.base + day.n * day.w ≤ length s.now) × (day.n ≤ most_events) }
    ensures times { (fs : List Alternative) → DayOf day.n fs (table_at s.now day.base day.w) → take day.n result ≡ least day.n fs }
    ensures small { (k : ℕ) → at result k ≤ middle }
{
    let mut t = [0; EVENTS];
    for v in 0..day.n {
        t[v] = latest_of(s, day, v);
    }
    t
}
