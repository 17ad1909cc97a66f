// Document 01, "Trace and replay": where a replay stands, where it starts, and a record of it answered.
#![tactic(auto)]

ghost use Rattle.std.specs.Prelude.{◌≡◌, List, ℕ, ◌+◌, ◌<◌, ◌^◌};
ghost use Rattle.model.specs.Replay.{stop, replay_start};
ghost use Rattle.access.specs.Bridge.{access_as};
ghost use Rattle.zeroed.specs.Bridge.{zeros};
ghost use Rattle.standing.specs.Bridge.{standing_as, performed, performed_as};

use access::{Access, Answer};
use card::Card;
use settings::Settings;

// Where a replay stands: the card, the record number expected, the records answered, and whether a refusal of the reader has stopped it, beside
// which the others hold too.
#[derive(Clone, Copy)]
pub struct Standing {
    pub card: Card,
    pub expected: u16,
    pub count: u64,
    pub stopped: bool,
}

// What a record gives: the answer of its access, and where the replay stands then.
#[derive(Clone, Copy)]
pub struct Performed {
    pub answer: Answer,
    pub standing: Standing,
}

// "On zeroed memories", which `zeroed::bytes` makes; "base 268,435,456, length 32,768, abort range 28,672 to 32,768"; "numbers start at 0".
pub fn start() -> Standing
    ensures { standing_as result (zeros 16384) (zeros 32768) ≡ replay_start }
{
    let settings = Settings {
        base: 268435456,
        length: 32768,
        lo: 28672,
        hi: 32768,
    };
    let card = card::fresh(settings).unwrap();
    Standing {
        card,
        expected: 0,
        count: 0,
        stopped: false,
    }
}

impl Standing {
    // One record, its access at hand: answered by the card, and number and count moved on.
    pub fn perform(self, shared: &mut [u8], window: &mut [u8], q: Access) -> Performed
        requires { self.count + 1 < 2 ^ 64 }
        ensures { performed_as result shared.new window.new ≡ performed (standing_as self shared.old window.old) (access_as q) }
    {
        let outcome = device::access(self.card, shared, window, q);
        Performed {
            answer: outcome.answer,
            standing: Standing {
                card: outcome.card,
                expected: trace::next_number(self.expected),
                count: self.count + 1,
                ..self
            },
        }
    }

    // "And stops."
    pub fn stop(self) -> Standing
        ensures { (m w : List ℕ) → standing_as result m w ≡ stop (standing_as self m w) }
    {
        Standing {
            stopped: true,
            ..self
        }
    }
}
