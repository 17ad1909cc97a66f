// What the test programs share: cases read from standard input one after the other, numbers of a case, digests, numbers written to standard output.
// No contract can say what is read or written.
#![tactic(auto)]

ghost use Rattle.std.specs.Prelude.{◌≡◌, ◌==◌, ◌≤◌, min, length, slice_index, EachIndex, if◌then◌else◌};
ghost use Rattle.testing.specs.Bridge.{AnswersInTurn, TakesPortions, portion, number_at, with_number, digest_from};

// Nothing says that an input ends, so a program counts its turns: more than it has cases.
pub const TURNS: u32 = 1000000;

// Answers case after case, until one says that there was none any more.
pub fn each_case<F: FnMut() -> bool>(mut answer: F)
    requires { F.IsAlwaysCallable answer }
    ensures { (last : F) × AnswersInTurn F.step TURNS answer last }
{
    for _ in 0..TURNS {
        if !answer() {
            break;
        }
    }
}

// The next bytes of the input; none where it ends before they are full.
pub fn read_case<const N: usize>() -> Option<[u8; N]> {
    let mut bytes = [0; N];
    if io::read_full(0, &mut bytes) == N {
        Some(bytes)
    } else {
        None
    }
}

// The next bytes of the input, and zeros from where it ends.
pub fn read_padded<const N: usize>() -> [u8; N] {
    let mut bytes = [0; N];
    io::read_full(0, &mut bytes);
    bytes
}

// As many of the next bytes of the input as are asked for, as there is room for, and as there are.
pub fn read_most(room: &mut [u8], asked: u32) -> &[u8]
    ensures { length result.now ≤ min asked (length room.old) }
{
    let most = (asked as usize).min(room.len());
    let size = io::read_full(0, &mut room[..most]);
    &room[..size]
}

// The most bytes that a case reads at a time.
const MOST: u32 = 65000;

fn portion(asked: u32) -> u32
    ensures { result ≡ portion asked }
{
    if asked == 0 { MOST } else { asked.min(MOST) }
}

// Has so many bytes taken in portions of the size that a case asks for, the most where it asks for none or more: each its size, and whether it is the
// last.
pub fn each_portion<F: FnMut(u32, bool)>(asked: u32, bytes: u32, mut take: F)
    requires { F.IsAlwaysCallable take }
    ensures { (last : F) × TakesPortions (λ f size ended next. F.step f size ended tt next) (portion asked) bytes take last }
{
    let most = portion(asked);
    let mut left = bytes;
    // No `for`: each portion has a size of its own, so what is left is no index to count.
    while left > 0 {
        let size = left.min(most);
        left -= size;
        take(size, left == 0);
    }
}

// The number with this place in a list of numbers of four bytes, least byte first; 0 behind its end.
pub fn number_at(bytes: &[u8], place: usize) -> u32
    ensures { result ≡ number_at bytes.now place }
{
    if bytes.len() / 4 <= place {
        return 0;
    }
    lanes::read_dword(bytes, 4 * place, lanes::ALL_LANES)
}

// The first numbers of such a list.
pub fn numbers<const N: usize>(bytes: &[u8]) -> [u32; N]
    ensures { EachIndex result (λ k. slice_index result k ≡ number_at bytes.now k) }
{
    let mut all = [0; N];
    for (i, each) in all.iter_mut().enumerate() {
        *each = number_at(bytes, i);
    }
    all
}

// A digest with one number more, and the digest of bytes.
pub fn with_number(digest: u64, number: u32) -> u64
    ensures { result ≡ with_number digest number }
{
    (digest % 4294967296 * 16777619 + u64::from(number)) % 4294967296
}

pub fn digest(bytes: &[u8]) -> u64
    ensures { result ≡ digest_from 0 bytes.now }
{
    bytes
        .iter()
        .fold(0, |sum, byte| with_number(sum, u32::from(*byte)))
}

// A number, and the byte after it.
pub fn show(n: u64, after: u8) {
    io::print_decimal(1, n);
    io::write_all(1, &[after]);
}

// Numbers as a line.
pub fn show_line(numbers: &[u64]) {
    if let Some((last, before)) = numbers.split_last() {
        for n in before {
            show(*n, b' ');
        }
        show(*last, b'\n');
    }
}
