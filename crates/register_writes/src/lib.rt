// Document 02, L4: a write of a dword, by what its offset names. Where it is an access of document 01, that access's function does it.
#![tactic(auto)]

ghost use Rattle.std.specs.Prelude.{◌≡◌, List, ℕ, length};
ghost use Rattle.model.specs.Checks.{shared_length};
ghost use Rattle.model.specs.Sides.{side_of};
ghost use Rattle.model.specs.RegisterMap.{interrupts_of, mail_from};
ghost use Rattle.model.specs.Registers.{write_row};
ghost use Rattle.register_map.specs.Bridge.{resource_as};
ghost use Rattle.card.specs.Bridge.{world_as, Settles};

use access::{Kind, Refusal};
use card::{Card, Outcome};
use register_map::Resource;

// An interrupt register is written by its own side alone, ..
fn write_interrupts(card: Card, owner: u8, side: u8, dword: u32) -> Outcome
    ensures { (m w : List ℕ) → Settles (write_row (interrupts_of (side_of owner)) (world_as card m w) (side_of side) dword) card m w result m w }
{
    if access::wrong_side(owner, side) {
        return card.refused(Refusal::WrongSide);
    }
    interrupt_access::write(
        card,
        access::asked(Kind::InterruptWrite as u8, side, 0, 0, dword),
    )
}

// .. and a mailbox by the side that it goes from. One function of both, with the access's function handed in, would be no plainer: each promises a row
// of its own.
fn write_mail(card: Card, writer: u8, side: u8, dword: u32) -> Outcome
    ensures { (m w : List ℕ) → Settles (write_row (mail_from (side_of writer)) (world_as card m w) (side_of side) dword) card m w result m w }
{
    if access::wrong_side(writer, side) {
        return card.refused(Refusal::WrongSide);
    }
    mailbox_access::write(
        card,
        access::asked(Kind::MailboxWrite as u8, side, 0, 0, dword),
    )
}

pub fn write_at(card: Card, shared: &mut [u8], x: Resource, side: u8, dword: u32) -> Outcome
    requires { length shared.old ≡ shared_length }
    ensures { (w : List ℕ) → Settles (write_row (resource_as x) (world_as card shared.old w) (side_of side) dword) card shared.old w result shared.new w }
{
    match x {
        Resource::Port { put, .. } => fifo_access::put(
            card,
            access::asked(Kind::Put as u8, side, put, 0, dword),
        ),
        Resource::DmaRegister(which) => dma_access::write(card, which, side, dword),
        Resource::Dmactl => dma_access::write_control(card, side, dword),
        Resource::Arbutil => arbutil::write(card, side, dword),
        Resource::InterruptsOf(owner) => write_interrupts(card, owner, side, dword),
        Resource::MailFrom(writer) => write_mail(card, writer, side, dword),
        Resource::SharedAt(address) => {
            memory_access::shared_write(
                card,
                shared,
                access::asked(Kind::SharedWrite as u8, side, 0, address, dword),
            )
        }
        Resource::Unmodelled => card.done(0, 0),
    }
}
