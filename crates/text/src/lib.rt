// Words and numbers in a text, read and written.
#![tactic(auto)]

ghost use Rattle.std.specs.Prelude.{◌≡◌, ◌+◌, true, ◌≤◌, leb, length, take, drop};
ghost use Rattle.text.specs.Word.{digits, width_in, decimal, all_digits, value_of, number_for, equal};
ghost use Rattle.text.specs.Written.{written_at};

// A number has at most 20 digits.
const MOST_DIGITS: usize = 20;

// ---- reading

// Every byte is a digit.
fn all_digits(s: &[u8]) -> bool
    ensures { result ≡ all_digits s.now }
{
    base::all_between(b'0', b'9', s)
}

// The number that at most eight digits are.
fn value(s: &[u8]) -> u32
    requires { (length s.now ≤ 8) × (all_digits s.now ≡ true) }
    ensures { result ≡ value_of s.now }
{
    let mut n = 0;
    for digit in s {
        n = n * 10 + (u32::from(*digit) - 0x30);
    }
    n
}

// The number that up to eight digits are, that of none being 0; nothing for any other text.
pub fn read_number(s: &[u8]) -> Option<u32>
    ensures { result ≡ number_for s.now }
{
    if 8 < s.len() || !all_digits(s) {
        return None;
    }
    Some(value(s))
}

// The bytes are the word.
pub fn is_word(s: &[u8], word: &[u8]) -> bool
    ensures { result ≡ equal s.now word.now }
{
    s == word
}

// The word stands at a place.
pub fn word_at(s: &[u8], at: usize, word: &[u8]) -> bool
    ensures { result ≡ equal (take (length word.now) (drop at s.now)) word.now }
{
    if s.len() < at {
        return word.is_empty();
    }
    s[at..].starts_with(word)
}

// ---- writing: each writer gives the place behind what it wrote; where that does not fit it writes nothing and gives the place itself
// The place goes beside the buffer: a writer that held the buffer would have to promise each time that it still holds the same one.

// Out has room for n bytes from a place on.
fn fits(at: usize, n: usize, out: &[u8]) -> bool
    ensures { result ≡ leb (at + n) (length out.now) }
{
    at <= out.len() && n <= out.len() - at
}

// Copies a word to a place of out.
pub fn put_word(word: &[u8], at: usize, out: &mut [u8]) -> usize
    ensures { (result, out.new) ≡ written_at at word.now out.old }
{
    if !fits(at, word.len(), out) {
        return at;
    }
    let end = at + word.len();
    out[at..end].copy_from_slice(word);
    end
}

// Fills all of out with the last decimal digits of a number.
fn fill_digits(n: u64, out: &mut [u8])
    ensures { out.new ≡ digits (length out.old) n }
{
    let mut rest = n;
    for i in (0..out.len()).rev() {
        out[i] = b'0' + (rest % 10) as u8;
        rest /= 10;
    }
}

// Writes a number in full width to a place of out.
pub fn put_digits(n: u64, width: usize, at: usize, out: &mut [u8]) -> usize
    ensures { (result, out.new) ≡ written_at at (digits width n) out.old }
{
    if !fits(at, width, out) {
        return at;
    }
    let end = at + width;
    fill_digits(n, &mut out[at..end]);
    end
}

// How many digits a number has.
fn width_of(n: u64) -> usize
    ensures { result ≡ width_in 19 n }
{
    let mut rest = n;
    for width in 1..MOST_DIGITS {
        if rest < 10 {
            return width;
        }
        rest /= 10;
    }
    MOST_DIGITS
}

// Writes a number with no leading zero to a place of out.
pub fn put_decimal(n: u64, at: usize, out: &mut [u8]) -> usize
    ensures { (result, out.new) ≡ written_at at (decimal n) out.old }
{
    put_digits(n, width_of(n), at, out)
}
