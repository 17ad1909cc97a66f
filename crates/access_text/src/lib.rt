// Document 02, L1: the text of an access, a line of a text list; its writer and its reader.
#![tactic(auto)]

ghost use Rattle.std.specs.Prelude.{◌≡◌, false, ◌+◌, ◌≤◌, length};
ghost use Rattle.model.specs.Text.{is_digit};
ghost use Rattle.model.specs.AccessText.{access_line, read_line};
ghost use Rattle.access.specs.Bridge.{access_as};
ghost use Rattle.decimal.specs.Bridge.{Written};
ghost use Rattle.access_text.specs.Bridge.{three_text, ThreeAt, line_as, Ends};

use access::{Access, Refusal};

// A line that is read: the access, and how many bytes its line has.
#[derive(Clone, Copy)]
pub struct Line {
    pub access: Access,
    pub length: usize,
}

// "Single spaces", "each ended by a line feed".
const SPACE: u8 = b' ';

const LINE_FEED: u8 = b'\n';

// "Numbers that fit."
const LARGEST_BYTE: u32 = 255;

const LARGEST_DWORD: u32 = 4294967295;

// Three numbers in decimal, a space after the first two and a byte after the third.
fn write_three(out: &mut [u8], at: usize, x: u64, y: u64, z: u64, last: u8) -> usize
    requires { at + length (three_text x y z last) ≤ length out.old }
    ensures { Written out.old at (three_text x y z last) result out.new }
{
    let p1 = decimal::write_field(out, at, x, SPACE);
    let p2 = decimal::write_field(out, p1, y, SPACE);
    decimal::write_field(out, p2, z, last)
}

// "Kind, side, S, A, B, C in decimal, single spaces", "ended by a line feed": at most 45 bytes.
pub fn write_line(out: &mut [u8], at: usize, q: Access) -> usize
    requires { at + 45 ≤ length out.old }
    ensures written { Written out.old at (access_line (access_as q)) result out.new }
    ensures upper_bound { result ≤ at + 45 }
{
    let p = write_three(out, at, q.kind as u64, q.side as u64, q.s as u64, SPACE);
    write_three(out, p, q.a as u64, q.b as u64, q.c as u64, LINE_FEED)
}

// Three numbers, and the place behind the byte after the third.
#[derive(Clone, Copy)]
struct Three {
    x: u64,
    y: u64,
    z: u64,
    next: usize,
}

// Reads three numbers of at most `largest` from a place of the text on.
fn read_three(text: &[u8], at: usize, largest: u32, last: u8) -> Option<Three>
    requires { is_digit last ≡ false }
    ensures { ThreeAt text.now at largest last result }
{
    let x = decimal::read_field(text, at, largest, SPACE)?;
    let y = decimal::read_field(text, x.next, largest, SPACE)?;
    let z = decimal::read_field(text, y.next, largest, last)?;
    Some(Three {
        x: x.number,
        y: y.number,
        z: z.number,
        next: z.next,
    })
}

// Reads the line at the start of the text; what follows it is not looked at. "25, a text line not in that form."
pub fn read_line(text: &[u8]) -> Result<Line, Refusal>
    ensures result_value { line_as result ≡ read_line text.now }
    ensures ends { Ends result }
{
    let bytes = read_three(text, 0, LARGEST_BYTE, SPACE).ok_or(Refusal::NoLine)?;
    let dwords = read_three(text, bytes.next, LARGEST_DWORD, LINE_FEED).ok_or(Refusal::NoLine)?;
    let access = Access {
        kind: bytes.x as u8,
        side: bytes.y as u8,
        s: bytes.z as u8,
        a: dwords.x as u32,
        b: dwords.y as u32,
        c: dwords.z as u32,
    };
    Ok(Line {
        access,
        length: dwords.next,
    })
}
