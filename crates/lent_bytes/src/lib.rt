// Bytes of lent memory by their place, where past the end every byte is 0; words and texts in them.
#![tactic(auto)]

pub mod texts;
pub mod words;

ghost use Rattle.std.specs.Prelude.{◌≡◌, ◌<◌};
ghost use Rattle.rules.specs.Limits.{byte_values};
ghost use Rattle.rules.specs.File.{byte};

// The byte at a place; past the end it is 0.
pub fn byte_at(bytes: &[u8], i: usize) -> u8
    ensures { result ≡ byte bytes.now i }
{
    bytes.get(i).copied().unwrap_or(0)
}

// The byte at a place as a number.
pub fn number_at(bytes: &[u8], i: usize) -> usize
    ensures { (result ≡ byte bytes.now i) × (result < byte_values) }
{
    usize::from(byte_at(bytes, i))
}
