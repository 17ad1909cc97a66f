// Asks of each trace of standard input why its bits read as they do. The traces stand one behind the other, as the independent program wrote them: how
// many bytes the trace has and how many questions are asked of it, each four bytes, least byte first; the trace; and the questions, each the lengths of
// two texts and the texts, a side and a position. What the program would write is written, and behind an answer its places, entries and records.
#![tactic(auto)]

use testing::{numbers, read_case, read_most, show};
use why_text::Reply;

// No trace of a case is longer.
const TRACE: usize = 82000;

// Nor is a text.
const TEXT: usize = 5120;

const ANSWER: usize = 1365;

// Where the texts of a question and its answer stand.
#[derive(Drop)]
struct Room {
    side: [u8; TEXT],
    position: [u8; TEXT],
    answer: [u8; ANSWER],
}

fn show_places(places: &[u32; 32]) {
    for place in places {
        show(u64::from(*place), b' ');
    }
    io::write_all(1, b"\n");
}

fn ask(side: &[u8], position: &[u8], trace: &[u8], answer: &mut [u8; ANSWER]) {
    let side = decimal::read_whole(side);
    let position = decimal::read_whole(position);
    let end = match why_text::ask(side, position, trace, answer) {
        Reply::Answer(end) | Reply::Usage(end) => end,
    };
    io::write_all(1, &answer[..end]);
    if let (Some(side), Some(position)) = (side, position) {
        match why::why(trace, side, position) {
            Ok(explanation) => {
                show_places(&explanation.entries);
                show_places(&explanation.records);
            }
            Err(_) => {
                show_places(&[0; 32]);
                show_places(&[0; 32]);
            }
        }
    }
}

// Asks a question; false where there is none any more.
fn next_question(trace: &[u8], room: &mut Room) -> bool {
    let Some(head) = read_case::<8>() else {
        return false;
    };
    let [side_size, position_size] = numbers::<2>(&head);
    let side = read_most(&mut room.side, side_size);
    let position = read_most(&mut room.position, position_size);
    ask(side, position, trace, &mut room.answer);
    true
}

// Reads a trace, and asks its questions; false where there is none any more.
fn next_trace(input: &mut [u8; TRACE], room: &mut Room) -> bool {
    let Some(head) = read_case::<8>() else {
        return false;
    };
    let [size, questions] = numbers::<2>(&head);
    let trace = read_most(input, size);
    for _ in 0..questions {
        if !next_question(trace, room) {
            break;
        }
    }
    true
}

fn main() {
    let mut input = [0; TRACE];
    let mut room = Room {
        side: [0; TEXT],
        position: [0; TEXT],
        answer: [0; ANSWER],
    };
    testing::each_case(|| next_trace(&mut input, &mut room));
}
