// Words of a line by their place, from 0; they are parted by one space.
ghost use Rattle.std.specs.Prelude.{◌≡◌, eqb};
ghost use Rattle.rules.specs.Format.{word_at, word_count};

// Word i of a line; behind the last it is empty.
pub fn word_at(line: &[u8], i: usize) -> &[u8]
    ensures { result.now ≡ word_at line.now i }
{
    line.split(|&b| b == b' ').nth(i).unwrap_or(&line[..0])
}

// Whether a line has so many words, which is one more than it has spaces: nothing behind that many spaces is read.
pub fn has_words(line: &[u8], count: usize) -> bool
    ensures { result ≡ eqb (word_count line.now) count }
{
    line.iter().filter(|&&b| b == b' ').take(count).count() + 1 == count
}
