// One chunk of the replay: read from standard input, answered, and its text written to standard output; and the last lines, by how it went.
#![tactic(auto)]

ghost use Rattle.std.specs.Prelude.{◌≡◌, true, ◌+◌, ◌<◌, ◌≤◌, ◌^◌, length};
ghost use Rattle.decimal.specs.Bridge.{Written};
ghost use Rattle.standing.specs.Bridge.{standing_as};
ghost use Rattle.turn.specs.Bridge.{first_turn, Turned, closing_text};

use player::Replayed;
use standing::Standing;
use std::io::Stdin;

// How a chunk of a replay went: where its text ends in the output buffer, and where the replay stands then.
pub type Turn = stream::Turn<Replayed>;

// Before the first chunk.
pub fn first(start: Standing) -> Turn
    ensures { result ≡ first_turn start }
{
    Turn::first(Replayed {
        end: 0,
        standing: start,
    })
}

// Reads a chunk, answers its records and writes their text. None is read behind a turn that does not go on.
pub fn replay_chunk(
    stdin: Stdin,
    last: Turn,
    shared: &mut [u8],
    window: &mut [u8],
    input: &mut [u8],
    out: &mut [u8],
) -> Turn
    requires more_value { last.more ≡ true }
    requires input_len { (length input.old ≡ 65520) × (length out.old ≡ 104832) }
    requires count_bound { last.work.standing.count + 3276 < 2 ^ 64 }
    ensures turned { Turned (standing_as last.work.standing shared.old window.old) result input.new out.new shared.new window.new }
    ensures count_bound_2 { result.work.standing.count ≤ last.work.standing.count + 3276 }
{
    let start = last.work().standing;
    let chunk = stream::read_chunk(stdin, input, 0);
    let size = chunk.at_hand();
    let replayed = player::answer_chunk(start, shared, window, &input[0..size], out);
    let lost = !io::write_all(1, stream::text(out, replayed.end));
    let standing = replayed.standing;
    let told = stream::records_told(lost, start.count, standing.count);
    last.next(chunk, replayed, standing.stopped, lost, told)
}

// "Then `end` and the count of records", unless the reader refused one, or the replay broke off.
pub fn last_line(turn: Turn, out: &mut [u8]) -> usize
    requires { 25 ≤ length out.old }
    ensures written { Written out.old 0 (closing_text turn) result out.new }
    ensures upper_bound { result ≤ 25 }
{
    if turn.broke_off() {
        return 0;
    }
    let standing = turn.work().standing;
    player::last_line(standing.stopped, standing.count, out)
}
