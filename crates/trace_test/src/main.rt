// Runs the reader and the writer of records on the cases of standard input: 60 bytes each, the record number, how many bytes are lent, an access in 16
// bytes, and 40 bytes that begin with those lent, as the independent program wrote them.
#![tactic(auto)]

use access::Access;
use testing::{number_at, show};

// Where the bytes that are lent begin.
const LENT: usize = 20;

fn access_of(case: &[u8; 60]) -> Access {
    Access {
        kind: case[4],
        side: case[5],
        s: case[6],
        a: number_at(case, 2),
        b: number_at(case, 3),
        c: number_at(case, 4),
    }
}

// What the reader answers on the bytes that are lent: 0 and the access, or the refusal.
fn show_read(lent: &[u8], number: u16) {
    match trace::read_record(lent, number) {
        Ok(q) => {
            for n in [
                0,
                u32::from(q.kind),
                u32::from(q.side),
                u32::from(q.s),
                q.a,
                q.b,
                q.c,
            ] {
                show(u64::from(n), b' ');
            }
        }
        Err(refusal) => show(u64::from(refusal.number()), b' '),
    }
}

// The byte after a number: a line feed where no lent byte is left to follow.
fn after(left: usize) -> u8 {
    if left == 0 { b'\n' } else { b' ' }
}

// What the writer answers: 0 and the next number, or the refusal.
fn show_written(lent: &mut [u8], number: u16, q: Access) {
    let left = lent.len();
    match trace::write_record(number, q, lent) {
        Ok(next) => {
            show(0, b' ');
            show(u64::from(next), after(left));
        }
        Err(refusal) => show(u64::from(refusal.number()), after(left)),
    }
}

// Reads a case and writes a line of what the reader answers, with the number after the one given, and a line of what the writer does, with the bytes that
// were lent, as they are then; false where the input ends.
fn run_case() -> bool {
    let Some(mut case) = testing::read_case::<60>() else {
        return false;
    };
    let number = u16::from_le_bytes([case[0], case[1]]);
    let length = usize::from(case[2]);
    let q = access_of(&case);
    if let Some(lent) = case.get(LENT..LENT + length) {
        show_read(lent, number);
    }
    show(u64::from(trace::next_number(number)), b'\n');
    if let Some(lent) = case.get_mut(LENT..LENT + length) {
        show_written(lent, number, q);
    }
    for (byte, left) in case[LENT..].iter().zip((0..length).rev()) {
        show(u64::from(*byte), after(left));
    }
    true
}

fn main() {
    testing::each_case(run_case);
}
