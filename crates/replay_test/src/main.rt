// Replays each trace of standard input by itself, from a fresh card and zeroed memories. The traces stand one behind the other, each behind its length in four bytes, least byte first, as the independent program wrote them.
#![tactic(auto)]

ghost use Rattle.std.specs.Prelude.{◌≡◌, ◌+◌, ◌<◌, ◌≤◌, ◌^◌, length};

use standing::Standing;

const INPUT: usize = 65520;

// A record's line has at most 32 bytes.
const OUTPUT: usize = 104832;

// Reads a chunk, answers its records and writes their text.
fn replay_chunk(
    start: Standing,
    shared: &mut [u8],
    window: &mut [u8],
    input: &mut [u8],
    out: &mut [u8; OUTPUT],
) -> Standing
    requires input_len_bound { length input.old ≤ INPUT }
    requires input_bound { start.count + length input.old < 2 ^ 32 }
    ensures { result.count ≤ start.count + length input.old }
{
    let size = io::read_full(0, input);
    let replayed = player::answer_chunk(start, shared, window, &input[..size], out);
    io::write_all(1, &out[..replayed.end]);
    replayed.standing
}

// Chunk after chunk of a trace of this length. What follows a refusal is read and not answered.
fn replay_trace(input: &mut [u8; INPUT], out: &mut [u8; OUTPUT], bytes: u32) {
    let mut shared = [0; 16384];
    let mut window = [0; 32768];
    let mut standing = standing::start();
    let mut left = bytes as usize;
    // No `for`: the last chunk is smaller, so what is left is no index to count.
    while left > 0 {
        let size = left.min(INPUT);
        standing = replay_chunk(standing, &mut shared, &mut window, &mut input[..size], out);
        left -= size;
    }
    let end = player::last_line(standing.stopped, standing.count, out);
    io::write_all(1, &out[..end]);
}

// Replays a trace; false where the input ends.
fn next_trace(input: &mut [u8; INPUT], out: &mut [u8; OUTPUT]) -> bool {
    let Some(length) = testing::read_case::<4>() else {
        return false;
    };
    replay_trace(input, out, u32::from_le_bytes(length));
    true
}

fn main() {
    let mut input = [0; INPUT];
    let mut out = [0; OUTPUT];
    testing::each_case(|| next_trace(&mut input, &mut out));
}
