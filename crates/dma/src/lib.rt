// Document 02, L4: the DMA registers by value, which a transfer is programmed in. Pages are those of document 000, the data sheet.
#![tactic(auto)]

ghost use Rattle.std.specs.Prelude.{◌≡◌, ◌<◌};
ghost use Rattle.model.specs.Sides.{side_of};
ghost use Rattle.model.specs.Events.{bit};
ghost use Rattle.model.specs.Dma.{fresh_dma, bits_of, stored_in, with_stored, shown, programmed, control_value, owner_bit, owner_written, control_written, request_in};
ghost use Rattle.arbitration.specs.Bridge.{pair_as};
ghost use Rattle.transfer.specs.Bridge.{request_as};
ghost use Rattle.dma.specs.Bridge.{programmed_as, dma_as};

use arbitration::Pair;
use transfer::Request;

// DMALBASE, DMAHBASE and DMASIZE, named as in a transfer; and DMACTL: the flags P and L, PI and W.
#[derive(Clone, Copy, Default)]
pub struct Dma {
    pub shared: u32,
    pub pci: u32,
    pub size: u32,
    pub owner: Pair,
    pub inhibit: bool,
    pub outward: bool,
}

// The three that a transfer is programmed in before it starts.
#[derive(Clone, Copy)]
pub enum Programmed {
    Dmalbase,
    Dmahbase,
    Dmasize,
}

impl Programmed {
    // bits 13 to 2, 31 to 2 and 13 to 2 (pages 36 and 37)
    fn bits(self) -> u32
        ensures { result ≡ bits_of (programmed_as self) }
    {
        match self {
            Programmed::Dmalbase => 0x3FFC,
            Programmed::Dmahbase => 0xFFFFFFFC,
            Programmed::Dmasize => 0x3FFC,
        }
    }
}

fn bit(position: u32, dword: u32) -> bool
    requires { position < 32 }
    ensures { result ≡ bit position dword }
{
    (dword >> position) & 1 == 1
}

// DMACTL's bits: 9 L, 8 P, 1 PI, 0 W (page 37). A side's own ownership bit.
fn owner_bit(side: u8, dword: u32) -> bool
    ensures { result ≡ bit (owner_bit (side_of side)) dword }
{
    bit(if side == access::HOST { 8 } else { 9 }, dword)
}

// "Updates the value if and only if" the other side's bit is not set; "never" that one (page 37).
fn owner_written(owner: Pair, side: u8, dword: u32) -> Pair
    ensures { pair_as result ≡ owner_written (side_of side) dword (pair_as owner) }
{
    if owner.other(side) {
        return owner;
    }
    owner.with(side, owner_bit(side, dword))
}

impl Dma {
    pub fn fresh() -> Dma
        ensures { dma_as result ≡ fresh_dma }
    {
        Dma::default()
    }

    fn stored(self, which: Programmed) -> u32
        ensures { result ≡ stored_in (programmed_as which) (dma_as self) }
    {
        match which {
            Programmed::Dmalbase => self.shared,
            Programmed::Dmahbase => self.pci,
            Programmed::Dmasize => self.size,
        }
    }

    fn with_stored(self, which: Programmed, word: u32) -> Dma
        ensures { dma_as result ≡ with_stored (programmed_as which) word (dma_as self) }
    {
        match which {
            Programmed::Dmalbase => Dma {
                shared: word,
                ..self
            },
            Programmed::Dmahbase => Dma { pci: word, ..self },
            Programmed::Dmasize => Dma { size: word, ..self },
        }
    }

    // A register as it reads: its bits alone.
    pub fn shown(self, which: Programmed) -> u32
        ensures { result ≡ shown (programmed_as which) (dma_as self) }
    {
        self.stored(which) & which.bits()
    }

    // A register written: its bits alone.
    pub fn program(self, which: Programmed, dword: u32) -> Dma
        ensures { dma_as result ≡ programmed (programmed_as which) dword (dma_as self) }
    {
        self.with_stored(which, dword & which.bits())
    }

    // DMACTL as it reads.
    pub fn control(self) -> u32
        ensures { result ≡ control_value (dma_as self) }
    {
        self.owner.value() * 256
            + arbitration::weighed(self.inhibit, 2)
            + arbitration::weighed(self.outward, 1)
    }

    // What DMACTL stores with a start.
    pub fn write_control(self, side: u8, dword: u32) -> Dma
        ensures { dma_as result ≡ control_written (side_of side) dword (dma_as self) }
    {
        Dma {
            owner: owner_written(self.owner, side, dword),
            inhibit: bit(1, dword),
            outward: bit(0, dword),
            ..self
        }
    }

    // The transfer that a write of DMACTL starts: each register as it reads.
    pub fn request(self, dword: u32) -> Request
        ensures { request_as result ≡ request_in (dma_as self) dword }
    {
        Request {
            direction: (dword % 2) as u8,
            shared: self.shown(Programmed::Dmalbase),
            pci: self.shown(Programmed::Dmahbase),
            size: self.shown(Programmed::Dmasize),
        }
    }
}
