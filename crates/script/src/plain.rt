// The plain form of the reader: the slice and the place come from the caller.
ghost use Rattle.std.specs.Prelude.{◌≡◌, ◌≤◌};
ghost use Rattle.meaning.specs.Limits.{most_events};
ghost use Rattle.script.specs.Script.{script_at};
ghost use Rattle.script.specs.Notes.{Blank, Says};

use super::names::{Names, Span};
use super::reading::{Notes, read_piece};
use super::rules::no_rules;
use super::{Refused, Script};
use grammar::{START, piece_at, table};
use meaning::Refusal;
use problem::EVENTS;

// The notes at a script's beginning.
fn blank() -> Notes
    ensures { Blank result }
{
    let nowhere = Span { from: 0, to: 0 };
    Notes {
        names: Names {
            n: 0,
            spans: [nowhere; EVENTS],
        },
        new: nowhere,
        x: 0,
        y: 0,
        rules: no_rules(),
    }
}

// The script of which all was read.
fn script_of(notes: Notes) -> Script
    requires { notes.names.n ≤ most_events }
    ensures { Says notes result }
{
    Script {
        n: notes.names.n as u32,
        rules: notes.rules,
    }
}

// The script that begins at `at`, piece by piece, to the first fault, or to where it does not go on, or to its end.
pub fn script_from(text: &[u8], at: usize) -> Result<Script, Refused>
    ensures { result ≡ script_at text.now at }
{
    let table = table();
    let mut notes = blank();
    let mut from = at;
    let mut state = START;
    while let Some(part) = piece_at(text, from, state, &table) {
        let piece = Span { from, to: part.to };
        notes = read_piece(text, part.role, piece, notes)?;
        from = part.to;
        state = part.state;
    }
    if from < text.len() || !table.may_end(state) {
        return Err(Refused {
            refusal: Refusal::Script,
            place: from,
        });
    }
    Ok(script_of(notes))
}
