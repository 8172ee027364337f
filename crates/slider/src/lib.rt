// A slider gives a bound: its kind's calibration numbers and its position, in binary32, become a whole number or a refusal.
// The arithmetic is binary32's, each operation rounded once; the whole number is read off the bits.
#![tactic(auto)]

ghost use Rattle.std.specs.Prelude.{◌≡◌, ◌≤◌, ◌<◌, ◌^◌};
ghost use Rattle.slider.specs.Readings.{signed, reading, within, end_of, work_of, position_of};
ghost use Rattle.slider.specs.Slider.{bound_limit, number_of, told, fixed_gives, span_gives, rate_gives, slider_gives};
ghost use Rattle.slider.specs.Steps.{split_of, cap, places, if_at, limited_gives, rounds_up};

// The limits of 01: an end of a Span's travel, a Rate's work, a position in parts of 1 / 2 ^ PLACES, and the bound.
const END_LIMIT: u32 = 4096;

const WORK_LIMIT: u32 = 4096;

const PLACES: u32 = 8;

const GRID: u32 = 256;

const BOUND_LIMIT: u32 = 100000;

// A binary32 pattern: where its sign and its exponent's field begin.
const SIGN: u32 = 0x8000_0000;

const FIELD: u32 = 0x80_0000;

// The size at which a split stops: every limit lies below it.
const CAP: u32 = 0x80_0000;

// The two ends of a slider's travel, in either order.
#[derive(Clone, Copy)]
pub struct Travel {
    pub low: f32,
    pub high: f32,
}

// The kinds of slider, each with its calibration numbers.
#[derive(Clone, Copy)]
pub enum Kind {
    Span(Travel),
    Rate { work: f32 },
    Fixed(f32),
}

// What the bound is used for.
#[derive(Clone, Copy, PartialEq, Eq, Debug)]
pub enum Use {
    AtMost,
    AtLeast,
}

// Why there is no bound, each case with its number in 01.
#[derive(Clone, Copy, PartialEq, Eq, Debug)]
pub enum Refusal {
    Unread = 9,
    AtZero = 10,
    TooFar = 11,
}

impl From<Refusal> for u8 {
    ghost from_gives = { λ refusal n. n ≡ number_of refusal };

    // The number of a refusal.
    fn from(refusal: Refusal) -> u8 {
        refusal as u8
    }
}

// A finite number's sign and its size in parts of 1 / 2 ^ j, cut to a whole number that stops at CAP, and whether something was cut off.
#[derive(Clone, Copy)]
struct Split {
    neg: bool,
    whole: u32,
    cut: bool,
}

// A number's sign and its size in parts of 1 / 2 ^ j, if it is finite.
fn parts(x: f32, j: u32) -> Option<Split>
    requires { j ≤ places }
    ensures { result ≡ split_of j x }
{
    if !x.is_finite() {
        return None;
    }
    let b = x.to_bits();
    let neg = SIGN <= b;
    let g = b % SIGN;
    let e = g / FIELD + j;
    if e < 127 {
        return Some(Split {
            neg,
            whole: 0,
            cut: g != 0,
        });
    }
    if 150 <= e {
        return Some(Split {
            neg,
            whole: CAP,
            cut: false,
        });
    }
    let m = FIELD + g % FIELD;
    let unit = 1u32 << (150 - e);
    Some(Split {
        neg,
        whole: m / unit,
        cut: m % unit != 0,
    })
}

// Refuses x unless it is a whole number of parts of 1 / 2 ^ j, at most limit of them, and not below 0 unless `both` signs are allowed.
fn on_grid(x: f32, j: u32, limit: u32, both: bool) -> Result<(), Refusal>
    requires { (j ≤ places) × (limit < cap) }
    ensures { result ≡ if_at (within both limit (reading (2 ^ j) x)) }
{
    let p = parts(x, j).ok_or(Refusal::Unread)?;
    let below = !both && p.neg && p.whole != 0;
    if p.cut || limit < p.whole || below {
        return Err(Refusal::Unread);
    }
    Ok(())
}

// The whole number of size n with a sign.
fn signed_of(neg: bool, n: u32) -> i32
    requires { n ≤ bound_limit }
    ensures { result ≡ signed neg n }
{
    if neg { -(n as i32) } else { n as i32 }
}

// The whole number of size `whole`, or of one more, with a sign, as a bound; or the refusal of one that is too far.
fn limited(neg: bool, whole: u32, more: bool) -> Result<i32, Refusal>
    requires { whole ≤ cap }
    ensures { result ≡ told (limited_gives neg whole more) }
{
    let n = if more { whole + 1 } else { whole };
    if BOUND_LIMIT < n {
        return Err(Refusal::TooFar);
    }
    Ok(signed_of(neg, n))
}

// The bound for a value: rounded down for "at most"; rounded up, and negated, for "at least".
// What was cut off counts as one more where the rounding leads away from 0: down from a negative number, or up from a positive one.
fn bound_of(v: f32, used: Use) -> Result<i32, Refusal>
    ensures { result ≡ told (fixed_gives used v) }
{
    let p = parts(v, 0).ok_or(Refusal::Unread)?;
    let up = used == Use::AtLeast;
    limited(p.neg != up, p.whole, p.cut && p.neg != up)
}

// The bound of a Span at a position.
fn span(travel: Travel, position: f32, used: Use) -> Result<i32, Refusal>
    ensures { result ≡ told (span_gives used (end_of travel.low) (end_of travel.high) (position_of position)) }
{
    let Travel { low, high } = travel;
    on_grid(low, 0, END_LIMIT, true)?;
    on_grid(high, 0, END_LIMIT, true)?;
    on_grid(position, PLACES, GRID, false)?;
    bound_of(low + (high - low) * position, used)
}

// The bound of a Rate at a position.
fn rate(work: f32, position: f32, used: Use) -> Result<i32, Refusal>
    ensures { result ≡ told (rate_gives used (work_of work) (position_of position)) }
{
    on_grid(work, 0, WORK_LIMIT, false)?;
    on_grid(position, PLACES, GRID, false)?;
    if position == 0.0 {
        return Err(Refusal::AtZero);
    }
    bound_of(work / position, used)
}

// The bound that a slider of a kind gives at a position, as its use takes it, or the refusal.
pub fn slide(kind: Kind, position: f32, used: Use) -> Result<i32, Refusal>
    ensures { result ≡ told (slider_gives kind position used) }
{
    match kind {
        Kind::Span(travel) => span(travel, position, used),
        Kind::Rate { work } => rate(work, position, used),
        Kind::Fixed(value) => bound_of(value, used),
    }
}
