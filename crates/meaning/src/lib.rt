// What the planner's operations answer: 01, "What the screen may say", "The list of reasons" and "Lamps and sliders".
// The crate is for its definitions (specs) and what is shown of them (proofs); these types are what both speak of.
#![tactic(auto)]

ghost use Rattle.std.specs.Prelude.{◌≡◌};
ghost use Rattle.meaning.specs.Refusal.{number_of};

// Why an input is refused, each fault with its number: 01's 1 to 8, and 12, 13, 16, 20 and 21 of 02. A slider's own are `slider`'s.
#[derive(Clone, Copy, PartialEq, Eq, Debug)]
pub enum Refusal {
    // No event, or more than there may be.
    Events = 1,
    // More clauses than there may be.
    Clauses = 2,
    // Numbers that are no whole triples, or more than there may be.
    Triples = 3,
    // Clause counts that fall, rise by more than 4, or do not end at the number of triples.
    Counts = 4,
    // An event number that is none.
    Event = 5,
    // A bound that is too large.
    Bound = 6,
    // An allowance that is too large.
    Allowance = 7,
    // A timetable or picks that are lent too short.
    Lent = 8,
    // An event held against itself.
    Itself = 12,
    // A new fact that has no timetable with the old ones.
    NoTimetable = 13,
    // A table that is no standing day, or would be none afterwards.
    NoDay = 16,
    // A script that does not go on, or a name that may not stand there.
    Script = 20,
    // A text that is longer than the room.
    Room = 21,
}

// The number that is told.
impl From<Refusal> for u8 {
    ghost from_gives = { λ e r. r ≡ number_of e };

    fn from(e: Refusal) -> u8 {
        e as u8
    }
}

// The five cases of "What the screen may say". A refusal is its number there, a byte: a rule of the project, and `Screen.Shows` speaks of it.
#[derive(Clone, Copy)]
pub enum Answer {
    Plan { visits: u64, before: u64 },
    None { visits: u64, before: u64, rows: u64 },
    Unlisted { visits: u64, before: u64, rows: u64 },
    Stopped { visits: u64, before: u64 },
    Refused { number: u8 },
}

// What a reader says: the paper's three cases by name. As a Result of a bool a no would read `Ok(false)`, no plainer.
#[derive(Clone, Copy)]
pub enum Verdict {
    Yes,
    No,
    Refused { number: u8 },
}

// The lamp panel: the refusal's number or 0, the lit lamps as a set, how many are lit in all and per clause, and the first lit one or 64.
// Every field is settled where it is refused too (`Lamps.dark`), so it is no Result; and "or 64" is the paper's, so no Option.
#[derive(Clone, Copy)]
pub struct Panel {
    pub number: u8,
    pub lit: u64,
    pub total: u32,
    pub each: [u32; 32],
    pub first: u32,
}
