// The two programs of document 02, L14, by what is written: chunk after chunk of standard input scanned, and the entries, or the kept records anew,
// written to standard output. Standard error gets a line where a read or a write failed.
#![tactic(auto)]

ghost use Rattle.std.specs.Prelude.{◌≡◌, ◌+◌, ◌<◌, ◌≤◌, ◌^◌, length};
ghost use Rattle.decimal.specs.Bridge.{Written};
ghost use Rattle.rescue_chunk.specs.Bridge.{Small};
ghost use Rattle.rescuer.specs.Bridge.{stood_at, Going, Turned, Ended, closing_text, Closed};

use entry_text::Tally;
use rescue_chunk::{Output, Rescued};
use scan::Place;
use std::io::Stdin;

// Every loop must have an end: 2 to the 48 chunks, whose bytes a u64 still counts. At 10 GB a second they last 50 years.
const CHUNKS: u64 = 281474976710656;

// A record looks at 20 bytes.
const LONGEST: usize = 20;

// How a chunk went, with where its rescue stands.
type Turn = stream::Turn<Rescued>;

// Keeps what the last chunk left, reads a chunk behind it, scans it and writes what it gives.
fn rescue_next(
    stdin: Stdin,
    output: Output,
    last: Turn,
    input: &mut [u8; 65520],
    out: &mut [u8; 393222],
) -> Turn
    requires going { Going last }
    requires run_bound { last.work.place.from + last.work.place.run + 65520 < 2 ^ 64 }
    ensures turned { Turned output (stood_at last input.old) result input.new out.new }
    ensures run_bound_2 { result.work.place.from + result.work.place.run ≤ last.work.place.from + last.work.place.run + 65520 }
{
    let before = last.work();
    let full = last.size();
    let kept = stream::keep(input, before.at, full);
    let chunk = stream::read_chunk(stdin, input, kept);
    let size = chunk.size;
    let least = chunk.least(LONGEST);
    let place = before.place;
    let tally = before.tally;
    let rescued = rescue_chunk::rescue_chunk(output, least, place, tally, &input[0..size], out);
    let lost = !io::write_all(1, stream::text(out, rescued.end));
    let told = stream::records_told(lost, tally.kept, rescued.tally.kept);
    last.next(chunk, rescued, false, lost, told)
}

// Chunk after chunk, from the beginning. The three programs that do so have a loop each: one that is handed a closure forgets what that does to the
// buffers, of which `Ended` speaks.
fn rescue_input(
    stdin: Stdin,
    output: Output,
    input: &mut [u8; 65520],
    out: &mut [u8; 393222],
) -> Turn
    ensures ended { Ended output result input.new out.new }
    ensures run_bound { result.work.place.from + result.work.place.run + 20 < 2 ^ 64 }
{
    let mut turn = Turn::first(Rescued {
        at: 0,
        end: 0,
        place: Place::start(),
        tally: Tally::none(),
    });
    for _ in 0..CHUNKS {
        let on = turn.goes_on();
        if !on {
            return turn;
        }
        turn = rescue_next(stdin, output, turn, input, out);
    }
    turn
}

// What closes the output, unless the rescue broke off.
fn last_lines(output: Output, turn: Turn, out: &mut [u8]) -> usize
    requires small { Small turn.work.place turn.work.tally }
    requires run_bound { turn.work.place.from + turn.work.place.run + 20 < 2 ^ 64 }
    requires in_bounds { 118 ≤ length out.old }
    ensures written { Written out.old 0 (closing_text output turn) result out.new }
    ensures upper_bound { result ≤ 118 }
{
    if turn.broke_off() {
        return 0;
    }
    let rescued = turn.work();
    rescue_chunk::last_lines(output, rescued.place, rescued.tally, out)
}

fn finish(output: Output, turn: Turn, out: &mut [u8; 393222])
    requires small { Small turn.work.place turn.work.tally }
    requires run_bound { turn.work.place.from + turn.work.place.run + 20 < 2 ^ 64 }
    ensures { Closed output turn out.old out.new }
{
    let end = last_lines(output, turn, out);
    let unclosed = !io::write_all(1, stream::text(out, end));
    let fault = turn.fault_line(unclosed, out);
    io::write_all(2, stream::text(out, fault));
}

pub fn run(stdin: Stdin, output: Output) {
    let mut input = zeroed::bytes();
    // Six bytes for each of a full chunk, and two lines.
    let mut out = zeroed::bytes();
    let turn = rescue_input(stdin, output, &mut input, &mut out);
    finish(output, turn, &mut out);
}
