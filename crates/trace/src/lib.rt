// The record of 20 bytes: its reader, against the expected record number, and its writer.
#![tactic(auto)]

ghost use Rattle.std.specs.Prelude.{◌≡◌, ◌+◌, ◌≤◌, length, drop};
ghost use Rattle.model.specs.Checks.{refusal};
ghost use Rattle.model.specs.Trace.{number_at, record_bytes, trace_checks, access_at, read_record, next_number, write_record};
ghost use Rattle.model.specs.Rescue.{stands};
ghost use Rattle.access.specs.Bridge.{access_as, refusal_as};
ghost use Rattle.trace.specs.Bridge.{read_as, wrote_as};

use access::{Access, Refusal};

// "Each record has 20 bytes", and begins with "the two-byte mark".
const RECORD_LENGTH: usize = 20;

const MARK: [u8; 2] = [0x42, 0x50];

// The number of four bytes, "least byte first".
fn number_at(bytes: &[u8], at: usize) -> u32
    requires { at + 4 ≤ length bytes.now }
    ensures { result ≡ number_at 4 at bytes.now }
{
    lanes::dword_of(lanes::bytes_at(bytes, at))
}

// "Where a whole record with mark and zero byte stands": at a place with 20 bytes from there on (document 02, L14). Both bytes of the mark are compared at
// once: most places fail there.
pub fn stands(bytes: &[u8], at: usize) -> bool
    requires { at + 20 ≤ length bytes.now }
    ensures { result ≡ stands (drop at bytes.now) }
{
    if u16::from_le_bytes([bytes[at], bytes[at + 1]]) != u16::from_le_bytes(MARK) {
        return false;
    }
    bytes[at + 7] == 0
}

// The number that a whole record says.
pub fn record_number(bytes: &[u8]) -> u16
    requires { 20 ≤ length bytes.now }
    ensures { result ≡ number_at 2 2 bytes.now }
{
    u16::from_le_bytes([bytes[2], bytes[3]])
}

// "20 fewer than 20 bytes, 21 wrong mark, 22 unexpected record number, 23 byte 7 not zero, in that order".
fn checks(bytes: &[u8], expected: u16) -> Result<(), Refusal>
    ensures { refusal_as result ≡ refusal (trace_checks bytes.now expected) }
{
    Refusal::ShortRecord.when(bytes.len() < RECORD_LENGTH)?;
    Refusal::WrongMark.when([bytes[0], bytes[1]] != MARK)?;
    Refusal::RecordNumber.when(record_number(bytes) != expected)?;
    Refusal::ZeroByte.when(bytes[7] != 0)
}

// The access that a whole record says.
pub fn access_of(bytes: &[u8]) -> Access
    requires { 20 ≤ length bytes.now }
    ensures { access_as result ≡ access_at bytes.now }
{
    Access {
        kind: bytes[4],
        side: bytes[5],
        s: bytes[6],
        a: number_at(bytes, 8),
        b: number_at(bytes, 12),
        c: number_at(bytes, 16),
    }
}

// "The trace reader answers a record or a refusal": it reads the first 20 bytes, and what follows them is not looked at.
pub fn read_record(bytes: &[u8], expected: u16) -> Result<Access, Refusal>
    ensures { read_as result ≡ read_record bytes.now expected }
{
    checks(bytes, expected)?;
    Ok(access_of(bytes))
}

// "After 65,535 the record number starts again at 0."
pub fn next_number(n: u16) -> u16
    ensures { result ≡ next_number n }
{
    // Document 01 orders the supplied wrapping add.
    std::num::wrapping_add_u16(n, 1)
}

// Mark, number, kind, side, S, the zero byte, A, B and C.
fn record_bytes(number: u16, q: Access) -> [u8; 20]
    ensures { result ≡ record_bytes number (access_as q) }
{
    let [low, high] = number.to_le_bytes();
    let a = lanes::bytes_of(q.a);
    let b = lanes::bytes_of(q.b);
    let c = lanes::bytes_of(q.c);
    [
        MARK[0], MARK[1], low, high, q.kind, q.side, q.s, 0, a[0], a[1], a[2], a[3], b[0], b[1],
        b[2], b[3], c[0], c[1], c[2], c[3],
    ]
}

// Writes the record of an access with this number at the start of the buffer, and "answers the next number". "The rest of the buffer is untouched."
pub fn write_record(number: u16, q: Access, out: &mut [u8]) -> Result<u16, Refusal>
    ensures { wrote_as result out.new ≡ write_record number (access_as q) out.old }
{
    Refusal::NoRoom.when(out.len() < RECORD_LENGTH)?;
    out[..RECORD_LENGTH].copy_from_slice(&record_bytes(number, q));
    Ok(next_number(number))
}
