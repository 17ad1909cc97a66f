// Document 02, L4: the DMA registers read and written, and the start that a write of DMACTL is.
#![tactic(auto)]

ghost use Rattle.std.specs.Prelude.{List, ℕ};
ghost use Rattle.model.specs.Sides.{side_of};
ghost use Rattle.model.specs.Dma.{request_in};
ghost use Rattle.model.specs.RegisterMap.{dma_register, dmactl};
ghost use Rattle.model.specs.Registers.{start_row, read_row, write_row};
ghost use Rattle.dma.specs.Bridge.{programmed_as};
ghost use Rattle.card.specs.Bridge.{state_as, world_as, Settles};

use access::{Access, Done, Kind};
use card::{Card, Outcome};
use dma::Programmed;

// DMALBASE, DMAHBASE and DMASIZE
pub fn read(card: Card, which: Programmed, side: u8, dword: u32) -> Outcome
    ensures { (m w : List ℕ) → Settles (read_row (dma_register (programmed_as which)) (world_as card m w) (side_of side) dword) card m w result m w }
{
    plain_read::told(card, dword, card.dma.shown(which))
}

pub fn write(card: Card, which: Programmed, side: u8, dword: u32) -> Outcome
    ensures { (m w : List ℕ) → Settles (write_row (dma_register (programmed_as which)) (world_as card m w) (side_of side) dword) card m w result m w }
{
    card.with_dma(card.dma.program(which, dword)).done(0, 0)
}

// DMACTL
pub fn read_control(card: Card, side: u8, dword: u32) -> Outcome
    ensures { (m w : List ℕ) → Settles (read_row dmactl (world_as card m w) (side_of side) dword) card m w result m w }
{
    plain_read::told(card, dword, card.dma.control())
}

// Kind 14 with the transfer that is programmed.
fn start(card: Card, side: u8, dword: u32) -> Outcome
    ensures { (m w : List ℕ) → Settles (start_row (world_as card m w) (side_of side) (request_in (state_as card).dma dword)) card m w result m w }
{
    let request = card.dma.request(dword);
    let q = Access {
        kind: Kind::Start as u8,
        side,
        s: request.direction,
        a: request.shared,
        b: request.pci,
        c: request.size,
    };
    transfer_access::start(card, q)
}

// "A write to the low byte of this register triggers the DMA to occur" (document 000, page 37). A refused start stores nothing.
pub fn write_control(card: Card, side: u8, dword: u32) -> Outcome
    ensures { (m w : List ℕ) → Settles (write_row dmactl (world_as card m w) (side_of side) dword) card m w result m w }
{
    let started = start(card, side, dword);
    let after = started.card.with_dma(card.dma.write_control(side, dword));
    match started.answer {
        Err(refusal) => card.refused(refusal),
        Ok(Done { v, x }) => after.done(v, x),
    }
}
