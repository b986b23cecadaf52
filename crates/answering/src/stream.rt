// The stream of cases on standard input and the stream of answers on standard output: numbers of 64 bits, low byte first, and fields, which
// are a number of items and then the items.
use std::io::Read;

const WORD_BYTES: usize = 8;

// What a word of the stream can be: a word of a row, an entry of a schedule or a literal.
pub trait Item: Copy {
    // Nothing where the word is none.
    fn of(word: u64) -> Option<Self>;

    fn word(self) -> u64;
}

impl Item for u64 {
    fn of(word: u64) -> Option<u64> {
        Some(word)
    }

    fn word(self) -> u64 {
        self
    }
}

impl Item for u32 {
    fn of(word: u64) -> Option<u32> {
        u32::try_from(word).ok()
    }

    fn word(self) -> u64 {
        u64::from(self)
    }
}

// A literal's word is its two's complement.
impl Item for i32 {
    fn of(word: u64) -> Option<i32> {
        i32::try_from(word.cast_signed()).ok()
    }

    fn word(self) -> u64 {
        i64::from(self).cast_unsigned()
    }
}

// ---- reading, which gives nothing where the stream is cut off

pub fn read_number(input: &mut impl Read) -> Option<usize> {
    let mut bytes = [0u8; WORD_BYTES];
    input.read_exact(&mut bytes).ok()?;
    Some(u64::from_le_bytes(bytes) as usize)
}

// The number that begins a case; none where the stream ends before it.
pub fn read_first(input: &mut impl Read) -> Option<Option<usize>> {
    let mut bytes = [0u8; WORD_BYTES];
    let begun = input.read(&mut bytes).unwrap_or(0);
    if begun == 0 {
        return Some(None);
    }
    // what is read fills its room but at the end
    if begun < WORD_BYTES {
        return None;
    }
    Some(Some(u64::from_le_bytes(bytes) as usize))
}

// A field of bytes in the front of a room; nothing where it does not fit either.
pub fn read_bytes<'a>(input: &mut impl Read, room: &'a mut [u8]) -> Option<&'a mut [u8]> {
    let bytes = read_number(input)?;
    let field = room.get_mut(..bytes)?;
    input.read_exact(field).ok()?;
    Some(field)
}

// A field of words in the front of a room; nothing where it does not fit, or a word is no item. Its bytes go through `raw`.
pub fn read_items<'a, T: Item>(
    input: &mut impl Read,
    raw: &mut [u8],
    room: &'a mut [T],
) -> Option<&'a mut [T]> {
    let words = read_number(input)?;
    let field = room.get_mut(..words)?;
    let bytes = raw.get_mut(..words.checked_mul(WORD_BYTES)?)?;
    input.read_exact(bytes).ok()?;
    let (numbers, _) = bytes.as_chunks::<WORD_BYTES>();
    for (item, number) in field.iter_mut().zip(numbers) {
        *item = T::of(u64::from_le_bytes(*number))?;
    }
    Some(field)
}

// ---- writing, which gives nothing where not all could be written

pub fn write_number(output: &impl Print, number: usize) -> Option<()> {
    output.write_all(&(number as u64).to_le_bytes()).ok()
}

pub fn write_bytes(output: &impl Print, bytes: &[u8]) -> Option<()> {
    write_number(output, bytes.len())?;
    output.write_all(bytes).ok()
}

// The bytes of the words go through `raw`.
pub fn write_items<T: Item>(output: &impl Print, raw: &mut [u8], items: &[T]) -> Option<()> {
    let bytes = raw.get_mut(..items.len().checked_mul(WORD_BYTES)?)?;
    for (number, item) in bytes.chunks_exact_mut(WORD_BYTES).zip(items) {
        number.copy_from_slice(&item.word().to_le_bytes());
    }
    write_number(output, items.len())?;
    output.write_all(bytes).ok()
}
