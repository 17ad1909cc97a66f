// The text of the replay and of the refusals, and the line for standard error: each function stores its text in a lent buffer from a place on, and
// gives the place after it. Refusals come as numbers: any byte can be told.
#![tactic(auto)]

ghost use Rattle.std.specs.Prelude.{◌≡◌, ◌+◌, ◌≤◌, length};
ghost use Rattle.model.specs.Text.{line_text, end_text, refusal_text, log_text, refused_line_text};
ghost use Rattle.decimal.specs.Bridge.{Written};
ghost use Rattle.report.specs.Bridge.{failed_text};

use decimal::{write_field, write_word};

// The line of an answered record: at most 5, 3, 10 and 10 digits, each number with the byte after it.
#[tactic(auto, using(model::proofs::TextLaws::digits_8, model::proofs::TextLaws::digits_16, model::proofs::TextLaws::digits_32))]
pub fn write_line(out: &mut [u8], at: usize, number: u16, answer: u8, v: u32, x: u32) -> usize
    requires { at + 32 ≤ length out.old }
    ensures written { Written out.old at (line_text number answer v x) result out.new }
    ensures upper_bound { result ≤ at + 32 }
{
    let p1 = write_field(out, at, number as u64, b' ');
    let p2 = write_field(out, p1, answer as u64, b' ');
    let p3 = write_field(out, p2, v as u64, b' ');
    write_field(out, p3, x as u64, b'\n')
}

// The line of a refusal: a word, and then at most 3 and 20 digits.
#[tactic(auto, using(model::proofs::TextLaws::digits_8, model::proofs::TextLaws::digits_64))]
fn write_refusal(out: &mut [u8], at: usize, word: &[u8], r: u8, n: u64) -> usize
    requires { at + length word.now + 28 ≤ length out.old }
    ensures written { Written out.old at (refusal_text word.now r n) result out.new }
    ensures upper_bound { result ≤ at + length word.now + 28 }
{
    let p1 = write_word(out, at, word);
    let p2 = write_field(out, p1, r as u64, b' ');
    let p3 = write_word(out, p2, b"at ");
    write_field(out, p3, n, b'\n')
}

// "`log R at N` instead, N the records answered."
pub fn write_log(out: &mut [u8], at: usize, r: u8, n: u64) -> usize
    requires { at + 32 ≤ length out.old }
    ensures written { Written out.old at (log_text r n) result out.new }
    ensures upper_bound { result ≤ at + 32 }
{
    write_refusal(out, at, b"log ", r, n)
}

// "The line `text 25 at N`", "with its line number".
pub fn write_refused_line(out: &mut [u8], at: usize, r: u8, line: u64) -> usize
    requires { at + 33 ≤ length out.old }
    ensures written { Written out.old at (refused_line_text r line) result out.new }
    ensures upper_bound { result ≤ at + 33 }
{
    write_refusal(out, at, b"text ", r, line)
}

// "then `end` and the count of records": at most 20 digits.
#[tactic(auto, using(model::proofs::TextLaws::digits_64, decimal::specs::Laws::then), unfolding(model::specs::Text::end_text))]
pub fn write_end(out: &mut [u8], at: usize, n: u64) -> usize
    requires { at + 25 ≤ length out.old }
    ensures written { Written out.old at (end_text n) result out.new }
    ensures upper_bound { result ≤ at + 25 }
{
    let p1 = write_word(out, at, b"end ");
    write_field(out, p1, n, b'\n')
}

// Which of the two calls failed, and after how many records: at most 20 digits.
#[tactic(auto, using(model::proofs::TextLaws::digits_64))]
pub fn write_failed(out: &mut [u8], at: usize, reading: bool, n: u64) -> usize
    requires { at + 50 ≤ length out.old }
    ensures written { Written out.old at (failed_text reading n) result out.new }
    ensures upper_bound { result ≤ at + 50 }
{
    let call: &[u8] = if reading { b"reading" } else { b"writing" };
    let p1 = write_word(out, at, call);
    let p2 = write_word(out, p1, b" failed after ");
    let p3 = write_field(out, p2, n, b' ');
    write_word(out, p3, b"records\n")
}
