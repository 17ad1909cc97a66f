// Document 02, L4: a read of a dword, by what its offset names. Where it is an access of document 01, that access's function does it.
#![tactic(auto)]

ghost use Rattle.std.specs.Prelude.{◌≡◌, true, List, ℕ, length};
ghost use Rattle.model.specs.Checks.{shared_length};
ghost use Rattle.model.specs.Sides.{side_of};
ghost use Rattle.model.specs.State.{sound};
ghost use Rattle.model.specs.RegisterMap.{mail_from};
ghost use Rattle.model.specs.Registers.{read_row};
ghost use Rattle.register_map.specs.Bridge.{resource_as};
ghost use Rattle.card.specs.Bridge.{state_as, world_as, Settles};

use access::Kind;
use card::{Card, Outcome};
use register_map::Resource;

// The side that writes a mailbox reads its data there, and no label.
fn read_mail(card: Card, writer: u8, side: u8, dword: u32) -> Outcome
    ensures { (m w : List ℕ) → Settles (read_row (mail_from (side_of writer)) (world_as card m w) (side_of side) dword) card m w result m w }
{
    if access::wrong_side(writer, side) {
        return mailbox_access::read(
            card,
            access::asked(Kind::MailboxRead as u8, side, 0, 0, dword),
        );
    }
    plain_read::told(card, dword, card.mailboxes.read(access::other_side(writer)))
}

pub fn read_at(card: Card, shared: &[u8], x: Resource, side: u8, dword: u32) -> Outcome
    requires card_value { sound (state_as card) ≡ true }
    requires shared_len { length shared.now ≡ shared_length }
    ensures { (w : List ℕ) → Settles (read_row (resource_as x) (world_as card shared.now w) (side_of side) dword) card shared.now w result shared.now w }
{
    match x {
        Resource::Port { taken, .. } => fifo_access::take(
            card,
            access::asked(Kind::Take as u8, side, taken, 0, dword),
        ),
        Resource::DmaRegister(which) => dma_access::read(card, which, side, dword),
        Resource::Dmactl => dma_access::read_control(card, side, dword),
        Resource::Arbutil => arbutil::read(card, side, dword),
        Resource::InterruptsOf(owner) => {
            interrupt_access::read(
                card,
                access::asked(Kind::InterruptRead as u8, owner, 0, 0, dword),
            )
        }
        Resource::MailFrom(writer) => read_mail(card, writer, side, dword),
        Resource::SharedAt(address) => {
            memory_access::shared_read(
                card,
                shared,
                access::asked(Kind::SharedRead as u8, side, 0, address, dword),
            )
        }
        Resource::Unmodelled => card.done(0, 0),
    }
}
