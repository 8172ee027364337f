// The pieces of a text, one after the other: the slice and the place come from the caller.
ghost use Rattle.grammar.specs.Automaton.{PieceAt};

use super::automaton::Transitions;
use super::role::Role;

// The state at which a script begins.
pub const START: u8 = 1;

// A piece: its role, the place after it, and the state there.
#[derive(Clone, Copy)]
pub struct Part {
    pub role: Role,
    pub to: usize,
    pub state: u8,
}

// The piece that begins at `at`, read at a state; None where the text ends there, or its next byte is refused.
pub fn piece_at(text: &[u8], at: usize, state: u8, table: &Transitions) -> Option<Part>
    ensures { PieceAt text.now at state result }
{
    let first = table.step(state, *text.get(at)?)?;
    let role = first.role;
    let mut s = first.to;
    for i in at + 1..text.len() {
        match table.step(s, text[i]) {
            Some(next) if next.role == role => s = next.to,
            _ => return Some(Part {
                role,
                to: i,
                state: s,
            }),
        }
    }
    Some(Part {
        role,
        to: text.len(),
        state: s,
    })
}
