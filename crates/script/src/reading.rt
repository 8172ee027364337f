// The pieces of a script read one by one: what each makes of what was read before it.
ghost use Rattle.std.specs.Prelude.{◌≡◌, ◌≤◌};
ghost use Rattle.meaning.specs.Limits.{most_bound};
ghost use Rattle.dialogue.specs.Words.{unsigned_of};
ghost use Rattle.grammar.specs.Roles.{meant};
ghost use Rattle.script.specs.Reading.{signed, with_new, is_again, with_event, with_bound, with_name, with_clause, with_check, read_piece};
ghost use Rattle.script.specs.Notes.{word_at, noted, Ready, Took, Makes};

use super::Refused;
use super::names::{Names, Span, event_of, is_new};
use super::rules::Rules;
use dialogue::unsigned_of;
use grammar::Role;
use meaning::Refusal;
use problem::{ALTERNATIVES, CLAUSES, EVENTS};

// The largest bound.
const BOUND: u32 = problem::BOUND as u32;

// What was read so far: the names, where the name of the open declaration stands, the events of the open atom, and the rules.
// The text, a piece of it and these notes stay three parameters: the text is lent once and the notes change with each piece, so a struct of
// them would be made anew for each of the four functions that take them.
#[derive(Clone, Copy)]
pub struct Notes {
    pub names: Names,
    pub new: Span,
    pub x: u8,
    pub y: u8,
    pub rules: Rules,
}

// The name of a declaration: 20 at its first byte where it may not be declared.
fn new_name(text: &[u8], name: Span, notes: Notes) -> Result<Notes, Refused>
    requires { Ready text.now name notes }
    ensures { Took text.now (with_new name.from (word_at text.now name)) notes name.to result }
{
    if is_new(text, notes.names, name.word(text)) {
        return Ok(Notes { new: name, ..notes });
    }
    Err(Refused {
        refusal: Refusal::Script,
        place: name.from,
    })
}

// The notes with the event of the open atom's first name, or of its second.
#[tactic(auto, unfolding(crate::specs::Notes::noted))]
fn with_event(notes: Notes, second: bool, event: u8) -> Notes
    ensures { result ≡ noted second event notes }
{
    if second {
        Notes { y: event, ..notes }
    } else {
        Notes { x: event, ..notes }
    }
}

// Whether a name of an atom is its second, and the event is that of its first.
fn is_again(second: bool, x: u8, event: u8) -> bool
    ensures { result ≡ is_again second x event }
{
    second && event == x
}

// A name of an atom, the first or the second: 20 at its first byte where it is not declared, 12 where it is the atom's first name again.
// Which of the two is a flag, as in `Reading.with_event`, and the sign of a bound is one, as in `Reading.signed`.
fn atom_name(text: &[u8], name: Span, second: bool, notes: Notes) -> Result<Notes, Refused>
    requires { Ready text.now name notes }
    ensures { Took text.now (with_event second name.from (word_at text.now name)) notes name.to result }
{
    let Some(event) = event_of(text, notes.names, name.word(text)) else {
        return Err(Refused {
            refusal: Refusal::Script,
            place: name.from,
        });
    };
    if is_again(second, notes.x, event) {
        return Err(Refusal::Itself.into());
    }
    Ok(with_event(notes, second, event))
}

// A bound's numeral as the bound.
fn bound_of(value: u32, negated: bool) -> i32
    requires { value ≤ most_bound }
    ensures { result ≡ signed negated value }
{
    if negated {
        -(value as i32)
    } else {
        value as i32
    }
}

// The bound of an atom, with which its alternative is whole: 6 where it is too large.
fn bound(text: &[u8], numeral: Span, negated: bool, notes: Notes) -> Result<Notes, Refused>
    requires { Ready text.now numeral notes }
    ensures { Took text.now (with_bound negated (unsigned_of most_bound (word_at text.now numeral))) notes numeral.to result }
{
    let Some(value) = unsigned_of(numeral.word(text), BOUND) else {
        return Err(Refusal::Bound.into());
    };
    let rules = notes
        .rules
        .with_alternative(notes.x, notes.y, bound_of(value, negated));
    Ok(Notes { rules, ..notes })
}

// The end of a declaration: 1 where it is one too many.
fn declaration_end(notes: Notes) -> Result<Notes, Refused>
    ensures { Makes with_name notes result }
{
    if EVENTS <= notes.names.n {
        return Err(Refusal::Events.into());
    }
    let names = notes.names.with_name(notes.new);
    Ok(Notes { names, ..notes })
}

// The end of an assert: 2 where it is one too many, 3 where it holds one alternative too many.
fn assert_end(notes: Notes) -> Result<Notes, Refused>
    ensures { Makes with_clause notes result }
{
    if CLAUSES <= notes.rules.clauses {
        return Err(Refusal::Clauses.into());
    }
    if ALTERNATIVES < notes.rules.alternatives {
        return Err(Refusal::Triples.into());
    }
    let rules = notes.rules.with_clause();
    Ok(Notes { rules, ..notes })
}

// The end of check-sat: 1 where no event is declared.
fn check_end(notes: Notes) -> Result<Notes, Refused>
    ensures { Makes with_check notes result }
{
    if notes.names.n == 0 {
        return Err(Refusal::Events.into());
    }
    Ok(notes)
}

// A piece of the text, of any role.
#[tactic(auto, unfolding(crate::specs::Reading::read_piece))]
pub fn read_piece(text: &[u8], role: Role, piece: Span, notes: Notes) -> Result<Notes, Refused>
    requires { Ready text.now piece notes }
    ensures { Took text.now (read_piece (meant role) piece.from (word_at text.now piece)) notes piece.to result }
{
    match role {
        Role::Other => Ok(notes),
        Role::NewName => new_name(text, piece, notes),
        Role::FirstName => atom_name(text, piece, false, notes),
        Role::SecondName => atom_name(text, piece, true, notes),
        Role::BoundDigit => bound(text, piece, false, notes),
        Role::NegatedDigit => bound(text, piece, true, notes),
        Role::DeclarationEnd => declaration_end(notes),
        Role::AssertEnd => assert_end(notes),
        Role::CheckEnd => check_end(notes),
    }
}
