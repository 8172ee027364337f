// A reader that stays on the lent script and knows its place: thin functions over the plain form.
ghost use Rattle.std.specs.Prelude.{◌≡◌};
ghost use Rattle.script.specs.Script.{script_at, script_in};

use super::plain::script_from;
use super::{Refused, Script};

// A script where it lies, and a place in it.
#[derive(Clone, Copy)]
pub struct Reader<'a> {
    pub script: &'a [u8],
    pub at: usize,
}

// A reader at the script's first byte. It and `read` are functions, not methods, as docs/CLAIMS.md names them.
pub fn begun<'a>(script: &'a [u8]) -> Reader<'a>
    ensures { (result.script ≡ script.entry) × (result.at ≡ 0) }
{
    Reader { script, at: 0 }
}

// What is read from the reader's place on.
pub fn read<'a>(r: Reader<'a>) -> Result<Script, Refused>
    ensures { result ≡ script_at r.entry.script.now r.entry.at }
{
    script_from(r.script, r.at)
}

// Reads a script: the problem that it says, or the refusal with its place.
pub fn read_script(text: &[u8]) -> Result<Script, Refused>
    ensures { result ≡ script_in text.now }
{
    read(begun(text))
}
