// Document 01, "Trace and replay": replays the trace of standard input, and writes the answers to standard output. Where a read or a write
// fails there is no last line, and standard error says which of the two it was, and after how many records.
#![tactic(auto)]

ghost use Rattle.std.specs.Prelude.{◌≡◌};
ghost use Rattle.model.specs.Replay.{replay_start};
ghost use Rattle.standing.specs.Bridge.{standing_as};
ghost use Rattle.replay.specs.Bridge.{Ended, Closed};

use sealed_turn::Turn;
use standing::Standing;
use std::io::Stdin;

// Every loop must have an end: 5 times 2 to the 50 chunks, whose records a u64 still counts. At 10 GB a second they last a thousand years.
const CHUNKS: u64 = 5629499534213120;

// Chunk after chunk, from the fresh card and zeroed memories. The three programs that do so have a loop each: one that is handed a closure forgets what
// that does to the buffers, of which `Ended` speaks.
fn replay_input(
    stdin: Stdin,
    start: Standing,
    shared: &mut [u8],
    window: &mut [u8],
    input: &mut [u8; 65520],
    out: &mut [u8; 104832],
) -> Turn
    requires { standing_as start shared.old window.old ≡ replay_start }
    ensures { Ended result.went input.new out.new shared.new window.new }
{
    let mut turn = sealed_turn::first(start);
    for _ in 0..CHUNKS {
        let on = turn.goes_on();
        if !on {
            return turn;
        }
        turn = sealed_turn::replay_chunk(stdin, turn, shared, window, input, out);
    }
    turn
}

// The last line, and the line for standard error where something failed.
fn finish(turn: Turn, out: &mut [u8; 104832])
    ensures { Closed turn.went out.old out.new }
{
    let end = sealed_turn::last_line(turn, out);
    let unclosed = !io::write_all(1, stream::text(out, end));
    let fault = turn.fault_line(unclosed, out);
    io::write_all(2, stream::text(out, fault));
}

fn main(rt: HostRuntime) {
    let mut shared = zeroed::bytes::<16384>();
    let mut window = zeroed::bytes::<32768>();
    let mut input = zeroed::bytes();
    // A record's line has at most 32 bytes.
    let mut out = zeroed::bytes();
    let turn = replay_input(
        rt.stdin(),
        standing::start(),
        &mut shared,
        &mut window,
        &mut input,
        &mut out,
    );
    finish(turn, &mut out);
}
