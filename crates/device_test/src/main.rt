// Runs the device, register accesses and the source on the cases of standard input, and writes the answers, the record and a digest of both
// memories.
// What stands in both files is said where they are made, in oracle/src/programs/device/mod.rs.
#![tactic(auto)]

use card::Card;
use case_card::{Asked, Call, Head};
use settings::Settings;
use testing::show_line;

// L4: a call is an access, or a register access. Its answer is written.
fn answer_call(card: Card, shared: &mut [u8], window: &mut [u8]) -> Card {
    let outcome = match case_card::read_call() {
        (Call::Register, q) => registers::register_access(
            card, shared, window, q.side, q.a, q.kind, q.b,
        ),
        (_, q) => device::access(card, shared, window, q),
    };
    case_card::show_answer(outcome.answer);
    outcome.card
}

// A source asked for: the length and the digest of its part.
fn answer_source(settings: Settings, shared: &[u8], window: &[u8]) {
    let (_, q) = case_card::read_call();
    let part = source::source(settings, shared, window, q.s, q.a, q.b, q.c);
    show_line(&[part.len() as u64, testing::digest(part)]);
}

// A case asks for sources, or has calls to its card.
fn answer_case(head: Head, shared: &mut [u8], window: &mut [u8]) {
    if head.asked == Asked::Sources {
        for _ in 0..head.count {
            answer_source(head.settings, shared, window);
        }
    } else {
        case_card::run_calls(head, shared, window, answer_call);
    }
}

fn main() {
    case_card::each_case(answer_case);
}
