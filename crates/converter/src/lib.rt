// The two programs of document 02, L1, by the form that is read: chunk after chunk of standard input turned into the other form and written to
// standard output. Standard error gets a line where a read or a write failed, and where a text was refused.
#![tactic(auto)]

ghost use Rattle.std.specs.Prelude.{◌≡◌, ◌+◌, ◌<◌, ◌≤◌, ◌^◌, length};
ghost use Rattle.std.proofs.lemmas.List.Edits.{sets};
ghost use Rattle.decimal.specs.Bridge.{Written};
ghost use Rattle.converter.specs.Bridge.{place_at, Going, Turned, Ended, error_text};

use access::Refusal;
use convert::{Converted, Form};
use std::io::Stdin;

// Every loop must have an end: 3 times 2 to the 50 chunks, whose accesses a u64 still counts. At 10 GB a second they last 700 years.
const CHUNKS: u64 = 3377699720527872;

// How a chunk went, with where its conversion stands.
type Turn = stream::Turn<Converted>;

// Keeps what the last chunk cut off, reads a chunk behind it, turns its accesses and writes them.
fn convert_next(
    stdin: Stdin,
    from: Form,
    last: Turn,
    input: &mut [u8; 65520],
    out: &mut [u8; 196605],
) -> Turn
    requires going { Going last }
    requires count_bound { last.work.count + 65520 < 2 ^ 64 }
    ensures turned { Turned from (place_at last input.old) result input.new out.new }
    ensures count_bound_2 { result.work.count ≤ last.work.count + 5460 }
{
    let before = last.work();
    let full = last.size();
    let kept = stream::keep(input, before.at, full);
    let chunk = stream::read_chunk(stdin, input, kept);
    let size = chunk.size;
    let least = chunk.least(from.longest());
    let converted = convert::convert_chunk(from, least, before.count, &input[0..size], out);
    let lost = !io::write_all(1, stream::text(out, converted.end));
    let told = stream::records_told(lost, before.count, converted.count);
    last.next(chunk, converted, converted.stopped, lost, told)
}

// Chunk after chunk, from the beginning. The three programs that do so have a loop each: one that is handed a closure forgets what that does to the
// buffers, of which `Ended` speaks.
fn convert_input(stdin: Stdin, from: Form, input: &mut [u8; 65520], out: &mut [u8; 196605]) -> Turn
    ensures ended { Ended from result input.new out.new }
    ensures count_bound { result.work.count + 1 < 2 ^ 64 }
{
    let mut turn = Turn::first(Converted {
        at: 0,
        end: 0,
        count: 0,
        stopped: false,
    });
    for _ in 0..CHUNKS {
        let on = turn.goes_on();
        if !on {
            return turn;
        }
        turn = convert_next(stdin, from, turn, input, out);
    }
    turn
}

// What standard error gets: where something failed, what and after how many records; and the refusal of a text, since the line at the end of a trace is
// read by nobody.
fn error_line(from: Form, turn: Turn, out: &mut [u8]) -> usize
    requires count_bound { turn.work.count + 1 < 2 ^ 64 }
    requires in_bounds { 50 ≤ length out.old }
    ensures written { Written out.old 0 (error_text from turn) result out.new }
    ensures upper_bound { result ≤ 50 }
{
    if turn.broke_off() {
        return turn.fault_line(false, out);
    }
    let converted = turn.work();
    match from {
        Form::Text if converted.stopped => {
            let refusal = Refusal::NoLine.number();
            report::write_refused_line(out, 0, refusal, converted.count + 1)
        }
        Form::Text | Form::Trace => 0,
    }
}

fn finish(from: Form, turn: Turn, out: &mut [u8; 196605])
    requires { turn.work.count + 1 < 2 ^ 64 }
    ensures { out.new ≡ sets out.old 0 (error_text from turn) }
{
    let end = error_line(from, turn, out);
    io::write_all(2, stream::text(out, end));
}

pub fn run(stdin: Stdin, from: Form) {
    let mut input = zeroed::bytes();
    // An access of 12 bytes or more becomes at most three times as many; and a refusal's line.
    let mut out = zeroed::bytes();
    let turn = convert_input(stdin, from, &mut input, &mut out);
    finish(from, turn, &mut out);
}
