// Rows of the list of reasons, worked out and written to lent memory as long as they fit.
ghost use Rattle.std.specs.Prelude.{◌≡◌, ◌↔◌, IsTrue, true, false, [], ◌∷◌, map, ◌+◌, ◌-◌, ◌*◌, ◌<◌, ◌≤◌, length, drop};
ghost use Rattle.meaning.specs.Limits.{most_events, row_bytes};
ghost use Rattle.meaning.specs.Decision.{sound};
ghost use Rattle.meaning.specs.Search.{dead, cycle};
ghost use Rattle.meaning.specs.Reasons.{mark_row};
ghost use Rattle.meaning.specs.Listing.{row_of};
ghost use Rattle.problem.specs.Arcs.{arc};
ghost use Rattle.problem.specs.Laid.{arcs, size_of, clause_of};
ghost use Rattle.facts.specs.Tests.{places, Within};
ghost use Rattle.held.specs.Held.{held, facts_in, Ready};
ghost use Rattle.taking.specs.Tables.{IsDay};
ghost use Rattle.search.specs.Standing.{Inside};
ghost use Rattle.search.specs.Depths.{facts_at, Depths};
ghost use Rattle.search.specs.Narrowing.{older};
ghost use Rattle.search.specs.Listing.{put_row, Keeps};
ghost use Rattle.search.specs.Steps.{most_rows};

use crate::Standing;
use crate::narrowing::narrowed;
use crate::taken::facts_of;
use held::Facts;
use problem::{Problem, ROW};
use shortest::BLANK;
use taking::passes_all;

// A mark row.
#[tactic(auto, unfolding(meaning::specs::Reasons::mark_row))]
pub fn mark_row(first: u8) -> [u8; ROW]
    ensures { result ≡ mark_row row_bytes first }
{
    let mut row = [BLANK; ROW];
    row[0] = first;
    row
}

// Whether the list has room for row number `rows`.
fn has_room(reasons: &[u8], rows: usize) -> bool
    requires { rows ≤ most_rows }
    ensures { IsTrue result ↔ (rows * row_bytes + row_bytes ≤ length reasons.now) }
{
    rows * ROW + ROW <= reasons.len()
}

// Row number `rows` of the list, where there is room for it.
pub fn put_row(reasons: &mut [u8], rows: usize, row: [u8; ROW])
    requires { rows ≤ most_rows }
    ensures { reasons.new ≡ put_row reasons.old rows row }
{
    if has_room(reasons, rows) {
        let from = rows * ROW;
        reasons[from..from + ROW].copy_from_slice(&row);
    }
}

// Row number `rows` of the list, where there is room for it: the shortest reason of the facts f, which is worked out only there. Those after the first `news`
// have a timetable.
fn put_reason(p: &Problem, f: &Facts, news: usize, reasons: &mut [u8], rows: usize)
    requires { Within (arcs p.now) (held f.now) p.now.n × (sound (facts_in p.now f.now) ≡ false) × (news ≤ length (held f.now)) × (sound (map (arc (arcs p.now)) (drop news (held f.now))) ≡ true) × (rows ≤ most_rows) }
    ensures { reasons.new ≡ put_row reasons.old rows (row_of row_bytes (cycle (facts_in p.now f.now))) }
{
    if has_room(reasons, rows) {
        put_row(reasons, rows, f.reason(p, news));
    }
}

// The same where only the newest of the facts f has no timetable with the others, whose day is lent: so the reason is looked for among fewer.
fn put_closing<const W: usize>(
    p: &Problem,
    f: &Facts,
    day: &[[u32; W]; W],
    reasons: &mut [u8],
    rows: usize,
)
    requires { Within (arcs p.now) (held f.now) p.now.n × (f.now.at < places) × (sound (facts_in p.now f.now) ≡ false) × (p.now.n ≤ W) × (W ≤ most_events) × IsDay W (map (arc (arcs p.now)) (older f.now)) day.now × (rows ≤ most_rows) }
    ensures { reasons.new ≡ put_row reasons.old rows (row_of row_bytes (cycle (facts_in p.now f.now))) }
{
    if has_room(reasons, rows) {
        put_row(reasons, rows, narrowed(p, f, day).reason(p, 1));
    }
}

// The cycle row of an unsound standing, from row number `rows` on; the table above it is the day of the standing above. The table at its depth may be written: the
// opposites of the standing's last position are added there. Where they are sound, it is the alternative alone that has no timetable with the others.
pub fn put_unsound<const W: usize>(
    p: &Problem,
    s: Standing,
    days: &mut [[[u32; W]; W]],
    reasons: &mut [u8],
    rows: usize,
)
    requires { Inside p.now s.picks s.k × (0 < s.k) × Depths W p.now s.picks s.k days.old × (sound (facts_at p.now s.picks s.k) ≡ false) × (rows ≤ most_rows) }
    ensures { Keeps reasons.old reasons.new rows (cycle (facts_at p.now s.picks s.k) ∷ []) × (length reasons.new ≡ length reasons.old) × Depths W p.now s.picks s.k days.new }
{
    if has_room(reasons, rows) {
        let f = facts_of(p, s);
        let above = s.k - 1;
        let first = usize::from(p.starts[above]);
        let pick = usize::from(s.picks[above]);
        match passes_all(days, above, s.k, &p.arcs, first, first + pick) {
            Some(base) => put_closing(p, &f, &days[base], reasons, rows),
            None => put_reason(p, &f, pick + 1, reasons, rows),
        }
    }
}

// The cycle rows of the dead clause d under the facts f, whose day is lent, from row number `rows` on.
fn put_clause<const W: usize>(
    p: &Problem,
    f: &Facts,
    d: usize,
    day: &[[u32; W]; W],
    reasons: &mut [u8],
    rows: usize,
)
    requires { Ready p.now f.now × (p.now.n ≤ W) × (W ≤ most_events) × IsDay W (facts_in p.now f.now) day.now × (d < p.now.m) × (dead sound (facts_in p.now f.now) (clause_of p.now d) ≡ true) × (rows + 4 ≤ most_rows) }
    ensures { Keeps reasons.old reasons.new rows (map (λ a. cycle (a ∷ facts_in p.now f.now)) (clause_of p.now d)) }
{
    let first = p.starts[d];
    for j in first..p.starts[d + 1] {
        let mut with = *f;
        with.put(j);
        put_closing(p, &with, day, reasons, rows + usize::from(j - first));
    }
}

// The cycle rows of the dead clause d of a sound standing, whose day is lent, from row number `rows` on; the number of the row after them. Where the first has no
// room none has, and the standing's facts are not looked for: so a run without room costs nothing for rows.
pub fn put_cycles<const W: usize>(
    p: &Problem,
    s: Standing,
    d: usize,
    day: &[[u32; W]; W],
    reasons: &mut [u8],
    rows: usize,
) -> usize
    requires { Inside p.now s.picks s.k × (p.now.n ≤ W) × (W ≤ most_events) × IsDay W (facts_at p.now s.picks s.k) day.now × (d < p.now.m) × (dead sound (facts_at p.now s.picks s.k) (clause_of p.now d) ≡ true) × (rows + 4 ≤ most_rows) }
    ensures { Keeps reasons.old reasons.new rows (map (λ a. cycle (a ∷ facts_at p.now s.picks s.k)) (clause_of p.now d)) × (result ≡ rows + size_of p.now d) }
{
    if has_room(reasons, rows) {
        put_clause(p, &facts_of(p, s), d, day, reasons, rows);
    }
    rows + usize::from(p.starts[d + 1] - p.starts[d])
}
