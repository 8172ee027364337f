// What a byte is to the reader of a script, and so the piece that it belongs to.
ghost use Rattle.grammar.specs.Roles.{IsNumbered};

#[derive(Clone, Copy, PartialEq, Eq)]
pub enum Role {
    Other,
    NewName,
    FirstName,
    SecondName,
    BoundDigit,
    NegatedDigit,
    DeclarationEnd,
    AssertEnd,
    CheckEnd,
}

// The role of a number in the automaton's table.
impl From<u8> for Role {
    ghost from_gives = { IsNumbered };

    fn from(number: u8) -> Role {
        match number {
            1 => Role::NewName,
            2 => Role::FirstName,
            3 => Role::SecondName,
            4 => Role::BoundDigit,
            5 => Role::NegatedDigit,
            6 => Role::DeclarationEnd,
            7 => Role::AssertEnd,
            8 => Role::CheckEnd,
            _ => Role::Other,
        }
    }
}
