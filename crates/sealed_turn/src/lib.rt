// One chunk of the replay: read from standard input, answered, and its text written to standard output; and the last lines, by how it went.
// A turn here is sealed: no other crate can see where it stands. The program `replay` names this crate in place of `turn`, so that it cannot begin anew behind
// a write that failed, from where that chunk stood. What is done is what `turn` does to any turn. It is written out here: where a turn goes through the functions
// of `turn`, the program takes 544 bytes more of the stack.
#![tactic(auto)]

ghost use Rattle.std.specs.Prelude.{◌≡◌, true, ◌+◌, ◌<◌, ◌≤◌, ◌^◌, length};
ghost use Rattle.decimal.specs.Bridge.{Written};
ghost use Rattle.standing.specs.Bridge.{standing_as};
ghost use Rattle.stream.specs.Bridge.{fault_text};
ghost use Rattle.turn.specs.Bridge.{first_turn, Turned, closing_text};

use player::Replayed;
use standing::Standing;
use std::io::Stdin;

// How a chunk of a replay went, with where its text ends in the output buffer, and where the replay stands then. Its field is private: a turn comes from a
// chunk that was replayed, or from before the first, and no other crate can make one in another way.
#[derive(Clone, Copy)]
pub struct Turn {
    went: stream::Turn<Replayed>,
}

// Before the first chunk.
pub fn first(start: Standing) -> Turn
    ensures { result.went ≡ first_turn start }
{
    Turn {
        went: stream::Turn::first(Replayed {
            end: 0,
            standing: start,
        }),
    }
}

impl Turn {
    pub fn goes_on(self) -> bool
        ensures { result ≡ self.went.more }
    {
        self.went.goes_on()
    }

    // The line for standard error; none where nothing failed. `unclosed`: the last line could not be written.
    pub fn fault_line(self, unclosed: bool, out: &mut [u8]) -> usize
        requires { 50 ≤ length out.old }
        ensures written { Written out.old 0 (fault_text self.went unclosed) result out.new }
        ensures upper_bound { result ≤ 50 }
    {
        self.went.fault_line(unclosed, out)
    }
}

// Reads a chunk, answers its records and writes their text. None is read behind a turn that does not go on.
pub fn replay_chunk(
    stdin: Stdin,
    last: Turn,
    shared: &mut [u8],
    window: &mut [u8],
    input: &mut [u8],
    out: &mut [u8],
) -> Turn
    requires more_value { last.went.more ≡ true }
    requires input_len { (length input.old ≡ 65520) × (length out.old ≡ 104832) }
    requires count_bound { last.went.work.standing.count + 3276 < 2 ^ 64 }
    ensures turned { Turned (standing_as last.went.work.standing shared.old window.old) result.went input.new out.new shared.new window.new }
    ensures count_bound_2 { result.went.work.standing.count ≤ last.went.work.standing.count + 3276 }
{
    let start = last.went.work().standing;
    let chunk = stream::read_chunk(stdin, input, 0);
    let size = chunk.at_hand();
    let replayed = player::answer_chunk(start, shared, window, &input[0..size], out);
    let lost = !io::write_all(1, stream::text(out, replayed.end));
    let standing = replayed.standing;
    let told = stream::records_told(lost, start.count, standing.count);
    let went = last
        .went
        .next(chunk, replayed, standing.stopped, lost, told);
    Turn { went }
}

// "Then `end` and the count of records", unless the reader refused one, or the replay broke off.
pub fn last_line(turn: Turn, out: &mut [u8]) -> usize
    requires { 25 ≤ length out.old }
    ensures written { Written out.old 0 (closing_text turn.went) result out.new }
    ensures upper_bound { result ≤ 25 }
{
    if turn.went.broke_off() {
        return 0;
    }
    let standing = turn.went.work().standing;
    player::last_line(standing.stopped, standing.count, out)
}
