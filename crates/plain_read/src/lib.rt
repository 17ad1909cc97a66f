// Document 02, L4: "A read there that is no such access answers as the sheet says, changing nothing."
#![tactic(auto)]

ghost use Rattle.std.specs.Prelude.{List, ℕ};
ghost use Rattle.model.specs.Registers.{plainly};
ghost use Rattle.card.specs.Bridge.{Settles};

use access::Refusal;
use card::{Card, Outcome};

// A value of the card, told to one who asks with dword 0.
pub fn told(card: Card, dword: u32, v: u32) -> Outcome
    ensures { (m w : List ℕ) → Settles (plainly dword v) card m w result m w }
{
    if dword != 0 {
        return card.refused(Refusal::UnusedField);
    }
    card.done(v, 0)
}
