// Reading a request: what its line asks for, with its lists in lent memory. The lengths of that memory are the limits of the counts.
// Each function gives what it read and the place after it, or none where the line is malformed.
ghost use Rattle.std.specs.Prelude.{◌≡◌, ◌≤◌, length, IfSome};
ghost use Rattle.dialogue.specs.Words.{signed_of};
ghost use Rattle.exchange.specs.Requests.{count_at, list_at, filled_at, lists_at, counts_at, head_at, fact_at, asked_at};

use dialogue::Spelled;

// How many numbers a problem's two lists hold.
#[derive(Clone, Copy)]
pub struct Lists {
    pub triples: usize,
    pub counts: usize,
}

// What a plan's request says before the lists: the events, the allowance, and how many elements are lent.
#[derive(Clone, Copy)]
pub struct Head {
    pub n: u32,
    pub allowance: u32,
    pub timetable: usize,
    pub picks: usize,
    pub reasons: usize,
}

// A fact's two events and its bound.
#[derive(Clone, Copy)]
pub struct Fact {
    pub x: i32,
    pub y: i32,
    pub c: i32,
}

// What a day's request says before its entries: the events, whether the opposite is meant, the fact, and how many elements are lent.
#[derive(Clone, Copy)]
pub struct Asked {
    pub n: u32,
    pub opposite: bool,
    pub fact: Fact,
    pub timetable: usize,
}

// A count at `at`, `most` at most.
pub fn count_at(line: &[u8], at: usize, most: usize) -> Option<(usize, usize)>
    ensures value { result ≡ count_at line.now at most }
    ensures within { IfSome result (λ r. r.0 ≤ most) }
{
    let (value, place) = dialogue::number_at(line, at, u32::MAX)?;
    let count = value as usize;
    if most < count {
        return None;
    }
    Some((count, place))
}

// A count and so many numbers, into the front of `out`.
pub fn list_at<T: Spelled>(line: &[u8], at: usize, out: &mut [T]) -> Option<(usize, usize)>
    ensures value { result ≡ list_at T.spelled line.now at out.old }
    ensures after { out.new ≡ filled_at T.spelled line.now at out.old }
    ensures within { IfSome result (λ r. r.0 ≤ length out.old) }
{
    let (count, place) = count_at(line, at, out.len())?;
    let end = dialogue::read_list(line, place, &mut out[..count])?;
    Some((count, end))
}

// A problem's triples and clause counts.
pub fn lists_at(
    line: &[u8],
    at: usize,
    triples: &mut [i32],
    counts: &mut [u32],
) -> Option<(Lists, usize)>
    ensures value { result ≡ lists_at line.now at triples.old counts.old }
    ensures triples_after { triples.new ≡ filled_at signed_of line.now at triples.old }
    ensures counts_after { counts.new ≡ counts_at line.now at triples.old counts.old }
    ensures within { IfSome result (λ r. (r.0.triples ≤ length triples.old) × (r.0.counts ≤ length counts.old)) }
{
    let (k, place) = list_at(line, at, triples)?;
    let (m, end) = list_at(line, place, counts)?;
    let lists = Lists {
        triples: k,
        counts: m,
    };
    Some((lists, end))
}

// What a plan's request says before the lists; the three most are how many elements there are to lend.
pub fn head_at(
    line: &[u8],
    at: usize,
    most_times: usize,
    most_picks: usize,
    most_reasons: usize,
) -> Option<(Head, usize)>
    ensures value { result ≡ head_at line.now at most_times most_picks most_reasons }
    ensures within { IfSome result (λ r. (r.0.timetable ≤ most_times) × (r.0.picks ≤ most_picks) × (r.0.reasons ≤ most_reasons)) }
{
    let (n, place) = dialogue::number_at(line, at, u32::MAX)?;
    let (allowance, place) = dialogue::number_at(line, place, u32::MAX)?;
    let (timetable, place) = count_at(line, place, most_times)?;
    let (picks, place) = count_at(line, place, most_picks)?;
    let (reasons, end) = count_at(line, place, most_reasons)?;
    let head = Head {
        n,
        allowance,
        timetable,
        picks,
        reasons,
    };
    Some((head, end))
}

// A fact's two events and its bound.
fn fact_at(line: &[u8], at: usize) -> Option<(Fact, usize)>
    ensures { result ≡ fact_at line.now at }
{
    let (x, place) = dialogue::signed_at(line, at)?;
    let (y, place) = dialogue::signed_at(line, place)?;
    let (c, end) = dialogue::signed_at(line, place)?;
    Some((Fact { x, y, c }, end))
}

// What a day's request says before its entries; `most_times` is how many elements there are to lend.
pub fn asked_at(line: &[u8], at: usize, most_times: usize) -> Option<(Asked, usize)>
    ensures value { result ≡ asked_at line.now at most_times }
    ensures within { IfSome result (λ r. r.0.timetable ≤ most_times) }
{
    let (n, place) = dialogue::number_at(line, at, u32::MAX)?;
    let (turned, place) = dialogue::number_at(line, place, 1)?;
    let (fact, place) = fact_at(line, place)?;
    let (timetable, end) = count_at(line, place, most_times)?;
    let asked = Asked {
        n,
        opposite: turned == 1,
        fact,
        timetable,
    };
    Some((asked, end))
}
