// The replay: the records of a chunk, answered by the card and written as text.
#![tactic(auto)]

ghost use Rattle.std.specs.Prelude.{◌≡◌, ◌+◌, ◌*◌, ◌<◌, ◌≤◌, ◌^◌, length};
ghost use Rattle.model.specs.Trace.{reading_number};
ghost use Rattle.model.specs.Text.{line_text};
ghost use Rattle.model.specs.Replay.{records_in, replay, last_text};
ghost use Rattle.access.specs.Bridge.{answer_as};
ghost use Rattle.trace.specs.Bridge.{read_as};
ghost use Rattle.decimal.specs.Bridge.{Written};
ghost use Rattle.standing.specs.Bridge.{standing_as};
ghost use Rattle.player.specs.Bridge.{Played};

use access::{Access, Answer, Refusal};
use standing::Standing;

// Where the text ends in the lent buffer, and where the replay stands then.
#[derive(Clone, Copy)]
pub struct Replayed {
    pub end: usize,
    pub standing: Standing,
}

// The number of a reader's refusal; 0 where it read a record.
fn refusal_number(read: Result<Access, Refusal>) -> u8
    ensures { result ≡ reading_number (read_as read) }
{
    match read {
        Ok(_) => 0,
        Err(refusal) => refusal.number(),
    }
}

// "Record number, answer number, V, X."
fn write_answer(out: &mut [u8], at: usize, number: u16, answer: Answer) -> usize
    requires { at + 32 ≤ length out.old }
    ensures written { Written out.old at (line_text number (answer_as answer).number (answer_as answer).v (answer_as answer).x) result out.new }
    ensures upper_bound { result ≤ at + 32 }
{
    match answer {
        Ok(done) => report::write_line(out, at, number, 0, done.v, done.x),
        Err(refusal) => report::write_line(out, at, number, refusal.number(), 0, 0),
    }
}

// Answers the records of `input` in their order, up to the first that the reader refuses, and writes their text at the start of `out`.
pub fn answer_chunk(
    start: Standing,
    shared: &mut [u8],
    window: &mut [u8],
    input: &[u8],
    out: &mut [u8],
) -> Replayed
    requires input_in_bounds { 32 * records_in input.now ≤ length out.old }
    requires input_bound { start.count + records_in input.now < 2 ^ 64 }
    ensures played { Played (replay (standing_as start shared.old window.old) input.now) out.old result.end out.new (standing_as result.standing shared.new window.new) }
    ensures end_in_bounds { result.end ≤ length out.old }
    ensures count_bound { result.standing.count ≤ start.count + records_in input.now }
{
    if start.stopped {
        return Replayed {
            end: 0,
            standing: start,
        };
    }
    let mut standing = start;
    let mut end = 0;
    for record in input.chunks(20) {
        let expected = standing.expected;
        let read = trace::read_record(record, expected);
        // Document 01 orders that `let .. else` takes the reader's answer apart.
        let Ok(q) = read else {
            end = report::write_log(out, end, refusal_number(read), standing.count);
            return Replayed {
                end,
                standing: standing.stop(),
            };
        };
        // The standing first: with the line written before it, the card would be copied once more.
        let performed = standing.perform(shared, window, q);
        standing = performed.standing;
        end = write_answer(out, end, expected, performed.answer);
    }
    Replayed { end, standing }
}

// "Then `end` and the count of records", unless the reader refused one.
pub fn last_line(stopped: bool, count: u64, out: &mut [u8]) -> usize
    requires { 25 ≤ length out.old }
    ensures written { Written out.old 0 (last_text stopped count) result out.new }
    ensures upper_bound { result ≤ 25 }
{
    if stopped {
        0
    } else {
        report::write_end(out, 0, count)
    }
}
