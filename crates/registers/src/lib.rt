// Document 02, L4: reads and writes of dwords at offsets in the 32 KB map.
#![tactic(auto)]

ghost use Rattle.std.specs.Prelude.{◌≡◌, IsOk};
ghost use Rattle.model.specs.Registers.{register_access};
ghost use Rattle.access.specs.Bridge.{answer_as};
ghost use Rattle.card.specs.Bridge.{world_as, outcome_as};

use access::Refusal;
use card::{Card, Outcome};

// "Turns side, offset, direction of access and dword into the accesses above." Both memories are lent, and the record is handed back by value. A
// refusal hands back the very record and leaves both memories; what is done is answered by `Ok`.
pub fn register_access(
    card: Card,
    shared: &mut [u8],
    window: &mut [u8],
    side: u8,
    offset: u32,
    direction: u8,
    dword: u32,
) -> Outcome
    ensures window_after { outcome_as result shared.new window.new ≡ register_access (world_as card shared.old window.old) (record { side = side; offset = offset; direction = direction; dword = dword }) }
    ensures card_value { ((answer_as result.answer).number ≡ 0 → ⊥) → result.card ≡ card }
    ensures fact { (answer_as result.answer).number ≡ 0 → IsOk result.answer }
{
    if !device::fits(card, shared.len(), window.len()) {
        return card.refused(Refusal::Unfit);
    }
    if 1 < side {
        return card.refused(Refusal::Unknown);
    }
    let x = register_map::resource_at(offset);
    let modelled = x.is_modelled();
    if !modelled {
        return card.refused(Refusal::Unmodelled);
    }
    // 0 a read, 1 a write: a number, since a caller may hand in any byte.
    match direction {
        0 => register_reads::read_at(card, shared, x, side, dword),
        1 => register_writes::write_at(card, shared, x, side, dword),
        2..=255 => card.refused(Refusal::Selector),
    }
}
