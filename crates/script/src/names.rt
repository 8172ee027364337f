// Names: which words may be declared, and the events that names stand for.
ghost use Rattle.std.specs.Prelude.{◌≡◌, ◌<◌};
ghost use Rattle.meaning.specs.Limits.{most_events};
ghost use Rattle.script.specs.Words.{is_kept, is_new};
ghost use Rattle.script.specs.Notes.{word_at, names_of, Lies, Within, Finds, Gains};

use problem::EVENTS;

// The most characters of a name.
const CHARACTERS: usize = 32;

// The words that are no names.
const KEPT: [&[u8]; 49] = [
    b"!",
    b"_",
    b"as",
    b"BINARY",
    b"DECIMAL",
    b"exists",
    b"HEXADECIMAL",
    b"forall",
    b"let",
    b"match",
    b"NUMERAL",
    b"par",
    b"STRING",
    b"assert",
    b"check-sat",
    b"check-sat-assuming",
    b"declare-const",
    b"declare-datatype",
    b"declare-datatypes",
    b"declare-fun",
    b"declare-sort",
    b"define-fun",
    b"define-fun-rec",
    b"define-funs-rec",
    b"define-sort",
    b"echo",
    b"exit",
    b"get-assertions",
    b"get-assignment",
    b"get-info",
    b"get-model",
    b"get-option",
    b"get-proof",
    b"get-unsat-assumptions",
    b"get-unsat-core",
    b"get-value",
    b"pop",
    b"push",
    b"reset",
    b"reset-assertions",
    b"set-info",
    b"set-logic",
    b"set-option",
    b"QF_IDL",
    b"Int",
    b"false",
    b"or",
    b"<=",
    b"-",
];

// Where a word stands in the text: from `from` up to `to`.
#[derive(Clone, Copy)]
pub struct Span {
    pub from: usize,
    pub to: usize,
}

impl Span {
    // The word there.
    pub fn word<'a>(self, text: &'a [u8]) -> &'a [u8]
        requires { Lies text.now self }
        ensures { result.now ≡ word_at text.now self }
    {
        &text[self.from..self.to]
    }
}

// The names declared so far: how many, and where each stands in the text.
// An array with its length beside it, since memory is fixed: there is no heap.
#[derive(Clone, Copy)]
pub struct Names {
    pub n: usize,
    pub spans: [Span; EVENTS],
}

impl Names {
    // The names with one more, which stands in the text there.
    pub fn with_name(self, name: Span) -> Names
        requires { self.n < most_events }
        ensures { Gains self name result }
    {
        let mut more = self;
        more.spans[self.n] = name;
        more.n += 1;
        more
    }
}

// Whether the word is reserved in SMT-LIB, or a word of the subset.
fn is_kept(word: &[u8]) -> bool
    ensures { result ≡ is_kept word.now }
{
    KEPT.contains(&word)
}

// The event of the name that the word is.
pub fn event_of(text: &[u8], names: Names, word: &[u8]) -> Option<u8>
    requires { Within text.now names }
    ensures { Finds (names_of text.now names) word.now result }
{
    names.spans[..names.n]
        .iter()
        .position(|name| name.word(text) == word)
        .map(|event| event as u8)
}

// Whether the word may be declared: short enough, no kept word, and no name yet.
pub fn is_new(text: &[u8], names: Names, word: &[u8]) -> bool
    requires { Within text.now names }
    ensures { result ≡ is_new (names_of text.now names) word.now }
{
    word.len() <= CHARACTERS && !is_kept(word) && event_of(text, names, word).is_none()
}
