// Reading: the words of a line, the numbers that words spell, and lists of numbers into lent memory. A line and a place in it are handed on,
// and no cursor kept: that would owe a clause of where it stands after a None, and no caller reads on there.
ghost use Rattle.std.specs.Prelude.{◌≡◌, ◌≤◌, ℕ, List, [], Option, None, max, length, position, ◌==◌};
ghost use Rattle.dialogue.specs.Words.{place_of, word_at, after_word, with_place, unsigned_of, signed_of, unsigned_empty, signed_empty};
ghost use Rattle.dialogue.specs.Lists.{after_list, list_from};

// A number of a type, as a word spells it.
pub trait Spelled: Copy {
    ghost spelled: { List ℕ → Option Self };

    // The number that `word` spells.
    fn spelled(word: &[u8]) -> Option<Self>
        ensures { result ≡ spelled word.now };

    // No word of no bytes spells a number.
    ghost full: { spelled [] ≡ None };
}

impl Spelled for u32 {
    ghost spelled = { unsigned_of 0xffffffff };

    ghost full = { unsigned_empty 0xffffffff };

    fn spelled(word: &[u8]) -> Option<u32> {
        unsigned_of(word, u32::MAX)
    }
}

impl Spelled for u8 {
    ghost spelled = { unsigned_of 255 };

    ghost full = { unsigned_empty 255 };

    fn spelled(word: &[u8]) -> Option<u8> {
        let value = unsigned_of(word, 255)?;
        Some(value as u8)
    }
}

impl Spelled for i32 {
    ghost spelled = { signed_of };

    ghost full = { signed_empty };

    fn spelled(word: &[u8]) -> Option<i32> {
        signed_of(word)
    }
}

// Where the first `stop` stands in text.
fn first_of(text: &[u8], stop: u8) -> Option<usize>
    ensures { result ≡ position (λ b. b == stop) text.now }
{
    text.iter().position(|&b| b == stop)
}

// The first place of text from `at` on where `stop` stands, or the end: every caller goes on from there, so it is no Option (`place_of`).
pub fn until(text: &[u8], at: usize, stop: u8) -> usize
    ensures value { result ≡ place_of stop text.now at }
    ensures lower_bound { (at ≤ result) × (result ≤ max at (length text.now)) }
{
    let Some(rest) = text.get(at..) else {
        return at;
    };
    at + first_of(rest, stop).unwrap_or(rest.len())
}

// The unsigned number, `most` at most, that word spells.
pub fn unsigned_of(word: &[u8], most: u32) -> Option<u32>
    ensures { result ≡ unsigned_of most word.now }
{
    if word.is_empty() {
        return None;
    }
    let mut value: u64 = 0;
    for &b in word {
        if !b.is_ascii_digit() {
            return None;
        }
        value = value * 10 + (b - b'0') as u64;
        if (most as u64) < value {
            return None;
        }
    }
    Some(value as u32)
}

// The signed 32-bit number that word spells.
pub fn signed_of(word: &[u8]) -> Option<i32>
    ensures { result ≡ signed_of word.now }
{
    if let Some(digits) = word.strip_prefix(b"-") {
        let size = unsigned_of(digits, 0x8000_0000)?;
        return Some(-(size as i64) as i32);
    }
    let size = unsigned_of(word, 0x7fff_ffff)?;
    Some(size as i32)
}

// The word that a space at `at` leads; empty where none stands there.
fn word_at(line: &[u8], at: usize) -> &[u8]
    ensures { result.now ≡ word_at line.now at }
{
    if at < line.len() && line[at] == b' ' {
        let from = at + 1;
        return &line[from..until(line, from, b' ')];
    }
    &line[..0]
}

// The number that the word led by a space at `at` spells, and the place after it.
pub fn next_at<T: Spelled>(line: &[u8], at: usize) -> Option<(T, usize)>
    ensures { result ≡ with_place (after_word line.now at) (T.spelled (word_at line.now at)) }
{
    let word = word_at(line, at);
    let value = T::spelled(word)?;
    Some((value, at + 1 + word.len()))
}

// The unsigned number, `most` at most, and the place after it.
pub fn number_at(line: &[u8], at: usize, most: u32) -> Option<(u32, usize)>
    ensures { result ≡ with_place (after_word line.now at) (unsigned_of most (word_at line.now at)) }
{
    let (value, place) = next_at::<u32>(line, at)?;
    if most < value {
        return None;
    }
    Some((value, place))
}

// The signed number, and the place after it. A name of its own, as docs/CLAIMS.md states its claim beside `number_at`.
pub fn signed_at(line: &[u8], at: usize) -> Option<(i32, usize)>
    ensures { result ≡ with_place (after_word line.now at) (signed_of (word_at line.now at)) }
{
    next_at(line, at)
}

// As many numbers as `out` holds, each led by a space, from `at` on: the place after them.
pub fn read_list<T: Spelled>(line: &[u8], at: usize, out: &mut [T]) -> Option<usize>
    ensures value { result ≡ after_list T.spelled line.now at out.old }
    ensures after { out.new ≡ list_from T.spelled line.now at out.old }
{
    let mut to = at;
    for number in out {
        let (value, place) = next_at::<T>(line, to)?;
        *number = value;
        to = place;
    }
    Some(to)
}
