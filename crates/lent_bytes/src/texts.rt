// Two texts compared.
ghost use Rattle.std.specs.Prelude.{◌≡◌};
ghost use Rattle.rules.specs.Lines.{agree, same};

// How many first bytes a line and a text share.
pub fn shared(line: &[u8], text: &[u8]) -> usize
    ensures { result ≡ agree line.now text.now }
{
    let both = line.len().min(text.len());
    for i in 0..both {
        if line[i] != text[i] {
            return i;
        }
    }
    both
}

// Whether a line is a text.
pub fn is_same(line: &[u8], text: &[u8]) -> bool
    ensures { result ≡ same line.now text.now }
{
    line == text
}
