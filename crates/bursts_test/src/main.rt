// Runs bursts and accesses on the cases of standard input, and writes the answers, the lists, the record and digests of both memories.
// What stands in both files is said where they are made, in oracle/src/programs/bursts/mod.rs.
#![tactic(auto)]

use access::Access;
use card::Card;
use case_bursts::Burst;
use case_card::{Call, Head};

// What an access has as its kind, A, B and C is of a burst its mode, its start, and how many phases and places it has.
fn burst_of(reads: bool, q: Access) -> Burst {
    Burst {
        reads,
        side: q.side,
        mode: q.kind,
        start: q.a,
        phases: q.b,
        places: q.c,
    }
}

fn answer_call(card: Card, shared: &mut [u8], window: &mut [u8]) -> Card {
    match case_card::read_call() {
        (Call::Access, q) => {
            let outcome = device::access(card, shared, window, q);
            case_card::show_answer(outcome.answer);
            outcome.card
        }
        // No burst changes the record.
        (call, q) => {
            case_bursts::run(card, shared, window, burst_of(call == Call::Read, q));
            card
        }
    }
}

fn answer_case(head: Head, shared: &mut [u8], window: &mut [u8]) {
    case_card::run_calls(head, shared, window, answer_call);
}

fn main() {
    case_card::each_case(answer_case);
}
