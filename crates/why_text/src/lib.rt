// Document 02, L7: what the program answers a question with, stored in a lent buffer: the text of an answer, or the usage line.
#![tactic(auto)]

ghost use Rattle.std.specs.Prelude.{◌≡◌, List, ◌++◌, ℕ, ◌+◌, ◌*◌, ◌≤◌, length, IfOk};
ghost use Rattle.model.specs.WhyText.{by_record, holding_text, holding_lines, why_text, held_text, answer_text, why_output};
ghost use Rattle.access.specs.Bridge.{number_of};
ghost use Rattle.decimal.specs.Bridge.{Written, ReadWhole};
ghost use Rattle.history.specs.Bridge.{holdings_from, told_as};
ghost use Rattle.why_text.specs.Bridge.{count_of, Replied, end_of};

use access::Refusal;
use decimal::{write_field, write_word};
use history::{Case, Explanation};

// A word in front, and ` by record N`: at most 10 digits.
#[tactic(auto, using(model::proofs::TextLaws::digits_32))]
fn write_by_record(out: &mut [u8], at: usize, word: &[u8], n: u32) -> usize
    requires { at + length word.now + 22 ≤ length out.old }
    ensures written { Written out.old at (word.now ++ by_record n) result out.new }
    ensures upper_bound { result ≤ at + length word.now + 22 }
{
    let p1 = write_word(out, at, word);
    let p2 = write_word(out, p1, b" by record ");
    write_field(out, p2, n as u64, b'\n')
}

// "`entry 7 put by record 3`."
#[tactic(auto, using(model::proofs::TextLaws::digits_32))]
fn write_holding(out: &mut [u8], at: usize, entry: u32, n: u32) -> usize
    requires { at + 42 ≤ length out.old }
    ensures written { Written out.old at (holding_text (record { entry = entry; put_by = n })) result out.new }
    ensures upper_bound { result ≤ at + 42 }
{
    let p1 = write_word(out, at, b"entry ");
    let p2 = write_field(out, p1, entry as u64, b' ');
    write_by_record(out, p2, b"put", n)
}

// "A line an entry, oldest first."
fn write_holdings(
    out: &mut [u8],
    at: usize,
    count: u32,
    entries: [u32; 32],
    records: [u32; 32],
) -> usize
    requires { (count ≤ 32) × (at + 42 * count ≤ length out.old) }
    ensures written { Written out.old at (holding_lines (holdings_from count entries records)) result out.new }
    ensures upper_bound { result ≤ at + 42 * count }
{
    let mut p = at;
    for (entry, n) in entries[..count as usize].iter().zip(&records) {
        p = write_holding(out, p, *entry, *n);
    }
    p
}

// "`set: 2 held`."
#[tactic(auto, using(model::proofs::TextLaws::digits_32))]
fn write_count(out: &mut [u8], count: u32) -> usize
    requires { 21 ≤ length out.old }
    ensures written { Written out.old 0 (held_text count) result out.new }
    ensures upper_bound { result ≤ 21 }
{
    let p1 = write_word(out, 0, b"set: ");
    let p2 = write_field(out, p1, count as u64, b' ');
    write_word(out, p2, b"held\n")
}

// "`why 42`."
#[tactic(auto, using(model::proofs::TextLaws::digits_8, decimal::specs::Laws::then), unfolding(model::specs::WhyText::why_text))]
fn write_refusal(out: &mut [u8], refusal: Refusal) -> usize
    requires { 8 ≤ length out.old }
    ensures written { Written out.old 0 (why_text (number_of refusal)) result out.new }
    ensures upper_bound { result ≤ 8 }
{
    let p1 = write_word(out, 0, b"why ");
    write_field(out, p1, refusal.number() as u64, b'\n')
}

// "`never raised`, `cleared by record 17`, or `set by record 4`; .. with entries held `set: 2 held` ..; a refusal is `why 42`."
#[tactic(auto, unfolding(model::specs::WhyText::answer_text))]
pub fn write_answer(out: &mut [u8], answer: Result<Explanation, Refusal>) -> usize
    requires case_bound { IfOk answer (λ e. count_of e.case ≤ 32) }
    requires in_bounds { 1365 ≤ length out.old }
    ensures written { Written out.old 0 (answer_text (told_as answer).answer) result out.new }
    ensures upper_bound { result ≤ 1365 }
{
    let e = match answer {
        Ok(e) => e,
        Err(refusal) => return write_refusal(out, refusal),
    };
    match e.case {
        Case::Never => write_word(out, 0, b"never raised\n"),
        Case::Cleared(n) => write_by_record(out, 0, b"cleared", n),
        Case::Set(n) => write_by_record(out, 0, b"set", n),
        Case::Held(count) => {
            let p = write_count(out, count);
            write_holdings(out, p, count, e.entries, e.records)
        }
    }
}

// What stands in the buffer, and where it ends: an answer for standard output, or the usage line for standard error.
#[derive(Clone, Copy)]
pub enum Reply {
    Answer(usize),
    Usage(usize),
}

// Answers the question of a side and a position, as their texts were read, about a trace.
pub fn ask(side: Option<u8>, position: Option<u8>, trace: &[u8], out: &mut [u8]) -> Reply
    requires { 1365 ≤ length out.old }
    ensures by_index { (s p : List ℕ) → ReadWhole s side → ReadWhole p position → Replied (why_output trace.now s p) out.old result out.new }
    ensures end_bound { end_of result ≤ 1365 }
{
    let (Some(side), Some(position)) = (side, position) else {
        return Reply::Usage(write_word(out, 0, b"usage: ./why capture.bin side position\n"));
    };
    let answer = why::why(trace, side, position);
    Reply::Answer(write_answer(out, answer))
}
