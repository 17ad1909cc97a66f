// Document 01, "Accesses": an access of the card.
#![tactic(auto)]

ghost use Rattle.std.specs.Prelude.{◌≡◌, List, ℕ, length, IsOk};
ghost use Rattle.model.specs.Accesses.{fit, access};
ghost use Rattle.access.specs.Bridge.{access_as, answer_as};
ghost use Rattle.card.specs.Bridge.{world_as, outcome_as};

use access::{Access, Refusal};
use card::{Card, Outcome};

// The contrary of cause 1: "record not sound, shared memory not 16,384 bytes, or window not of the set length".
pub fn fits(card: Card, shared: usize, window: usize) -> bool
    ensures { (m w : List ℕ) → shared ≡ length m → window ≡ length w → result ≡ fit (world_as card m w) }
{
    card::sound(card) & card.settings.lengths_fit(shared, window)
}

// "An access lends both memories and gets the new record back by value." A refusal hands back the very record and leaves
// both memories; what is done is answered by `Ok`. Both memories are lent by
// themselves, as document 01 orders: the promise speaks of each.
pub fn access(card: Card, shared: &mut [u8], window: &mut [u8], q: Access) -> Outcome
    ensures window_after { outcome_as result shared.new window.new ≡ access (world_as card shared.old window.old) (access_as q) }
    ensures card_value { ((answer_as result.answer).number ≡ 0 → ⊥) → result.card ≡ card }
    ensures fact { (answer_as result.answer).number ≡ 0 → IsOk result.answer }
{
    if !fits(card, shared.len(), window.len()) {
        return card.refused(Refusal::Unfit);
    }
    if 1 < q.side {
        return card.refused(Refusal::Unknown);
    }
    // Document 01 orders one match on the kind's number, with a range for the refused rest: `access::Kind` has no name for that.
    match q.kind {
        0 => card::reset(card, q),
        1 => memory_access::shared_read(card, shared, q),
        2 => memory_access::shared_write(card, shared, q),
        3 => memory_access::window_read(card, window, q),
        4 => memory_access::window_write(card, window, q),
        5 => fifo_access::take(card, q),
        6 => fifo_access::put(card, q),
        7 => arbitration_access::claim(card, q),
        8 => arbitration_access::release(card, q),
        9 => mailbox_access::write(card, q),
        10 => mailbox_access::read(card, q),
        11 => interrupt_access::read(card, q),
        12 => interrupt_access::write(card, q),
        13 => interrupt_access::line(card, q),
        14 => transfer_access::start(card, q),
        15 => transfer_access::step(card, shared, window, q),
        16 => interrupt_access::external_pin(card, q),
        17..=255 => card.refused(Refusal::Unknown),
    }
}
