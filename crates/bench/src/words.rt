// What stands in a line: numbers, and bytes as a text in quotes or in hexadecimal.
ghost use Rattle.std.specs.Prelude.{◌≤◌};

// The byte at a place; 0 if there is none.
pub(crate) fn at(s: &[u8], i: usize) -> u8 {
    s.get(i).copied().unwrap_or(0)
}

// ---- numbers

// A number with one digit more; 0 if that is no digit, or one too many.
fn with_digit(n: u32, b: u8) -> u32 {
    match b {
        b'0'..=b'9' if n <= 99999999 => 10 * n + u32::from(b - b'0'),
        _ => 0,
    }
}

// The number that a line ends in, of up to nine digits.
pub(crate) fn last_number(line: &[u8]) -> u32 {
    line.iter().fold(0, |n, b| with_digit(n, *b))
}

// The number that ends before a place.
pub(crate) fn number_before(line: &[u8], end: usize) -> usize {
    line.get(..end).map_or(0, |s| last_number(s) as usize)
}

// ---- bytes

// The most bytes that a line gives, and that are lent.
pub(crate) const MOST: usize = 183;

// The value of a hexadecimal digit; 0 for any other byte.
fn nibble(b: u8) -> u8
    ensures { result ≤ 15 }
{
    match b {
        b'0'..=b'9' => b - b'0',
        b'a'..=b'f' => b - b'a' + 10,
        _ => 0,
    }
}

// The byte at a place of those that words give: a text in quotes, or two digits for each byte with a space between.
fn byte_in(words: &[u8], i: usize) -> u8 {
    if MOST <= i {
        return 0;
    }
    if at(words, 0) == b'"' {
        return at(words, i + 1);
    }
    16 * nibble(at(words, 3 * i)) + nibble(at(words, 3 * i + 1))
}

// How many bytes words give.
pub(crate) fn count_in(words: &[u8]) -> usize {
    match words {
        [] | [b'"'] => 0,
        [b'"', text @ .., _] => text.len(),
        _ => words.len() / 3 + 1,
    }
}

// Fills a buffer with the bytes that words give.
pub(crate) fn fill(words: &[u8], out: &mut [u8]) {
    for (i, byte) in out.iter_mut().enumerate() {
        *byte = byte_in(words, i);
    }
}
