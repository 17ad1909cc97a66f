// Document 02, L7: says why an event bit reads as it does at the end of the trace of standard input. The side is the first argument, the position the
// second. Where a read or a write fails, standard error says which of the two it was, and after how many records.
#![tactic(auto)]

ghost use Rattle.std.specs.Prelude.{◌≡◌, ◌≤◌, length};
ghost use Rattle.decimal.specs.Bridge.{Written};
ghost use Rattle.why_text.specs.Bridge.{end_of};
ghost use Rattle.why_program.specs.Bridge.{Argument, Responded, answer_end, usage_end, fault_text, Closed};

use std::env::Env;
use std::io::Stdin;
use stream::Chunk;
use why_text::Reply;

// An argument, read as a number. One that is missing is empty, and no number.
fn argument(rt: &HostRuntime, i: usize, buffer: &mut [u8; 131072]) -> Option<u8>
    ensures { Argument buffer.new result }
{
    let size = rt.arg(i, buffer).unwrap_or(0);
    decimal::read_whole(&buffer[0..size])
}

// The trace, as far as the buffer holds it; nothing is read for a question that is not asked.
fn read_trace(stdin: Stdin, asked: bool, input: &mut [u8; 131072]) -> Chunk
    ensures { result.size ≤ length input.new }
{
    if asked {
        return stream::read_chunk(stdin, input, 0);
    }
    Chunk::default()
}

// What was read of the trace, and what stands in the output buffer.
#[derive(Clone, Copy)]
struct Turn {
    chunk: Chunk,
    reply: Reply,
}

fn respond(
    stdin: Stdin,
    side: Option<u8>,
    position: Option<u8>,
    input: &mut [u8; 131072],
    out: &mut [u8; 1365],
) -> Turn
    ensures responded { Responded side position result input.new out.old out.new }
    ensures end_bound { end_of result.reply ≤ 1365 }
{
    let chunk = read_trace(stdin, side.is_some() & position.is_some(), input);
    let size = chunk.size;
    let reply = why_text::ask(side, position, &input[0..size], out);
    Turn { chunk, reply }
}

impl Turn {
    // Where the part for standard output ends: an answer, unless reading failed.
    fn answer_end(self) -> usize
        requires { end_of self.reply ≤ 1365 }
        ensures value { result ≡ answer_end self }
        ensures upper_bound { result ≤ 1365 }
    {
        match self.reply {
            Reply::Answer(end) if !self.chunk.cut => end,
            Reply::Answer(_) | Reply::Usage(_) => 0,
        }
    }

    // Where the part for standard error ends: the usage line.
    fn usage_end(self) -> usize
        requires { end_of self.reply ≤ 1365 }
        ensures value { result ≡ usage_end self }
        ensures upper_bound { result ≤ 1365 }
    {
        match self.reply {
            Reply::Answer(_) => 0,
            Reply::Usage(end) => end,
        }
    }
}

// The line for standard error; none where nothing failed. `lost`: the answer could not be written.
fn fault_line(turn: Turn, lost: bool, out: &mut [u8]) -> usize
    requires { 50 ≤ length out.old }
    ensures written { Written out.old 0 (fault_text turn lost) result out.new }
    ensures upper_bound { result ≤ 50 }
{
    let chunk = turn.chunk;
    if chunk.cut | lost {
        return report::write_failed(out, 0, chunk.cut, (chunk.size / 20) as u64);
    }
    0
}

fn finish(turn: Turn, out: &mut [u8; 1365])
    requires { end_of turn.reply ≤ 1365 }
    ensures { Closed turn out.old out.new }
{
    let lost = !io::write_all(1, stream::text(out, turn.answer_end()));
    io::write_all(2, stream::text(out, turn.usage_end()));
    let fault = fault_line(turn, lost, out);
    io::write_all(2, stream::text(out, fault));
}

fn main(rt: HostRuntime) {
    // An argument has at most 131,071 bytes (Linux), and the longest trace that is not refused 81,920.
    let mut input = zeroed::bytes();
    let mut out = zeroed::bytes();
    let side = argument(&rt, 1, &mut input);
    let position = argument(&rt, 2, &mut input);
    let turn = respond(rt.stdin(), side, position, &mut input, &mut out);
    finish(turn, &mut out);
}
