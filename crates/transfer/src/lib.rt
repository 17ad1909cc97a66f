// Document 01, "Transfer": the one DMA transfer of a card, as its record keeps it.
#![tactic(auto)]

ghost use Rattle.std.specs.Prelude.{◌≡◌};
ghost use Rattle.model.specs.Checks.{refusal};
ghost use Rattle.model.specs.Transfer.{idle, request_checks, is_idle, transfer_sound};
ghost use Rattle.access.specs.Bridge.{refusal_as};
ghost use Rattle.transfer.specs.Bridge.{request_as, transfer_as};

use access::Refusal;

// What a start asks for: S, A, B and C. The direction is a byte, as a caller hands it in: above 1 it is refused.
#[derive(Clone, Copy)]
pub struct Request {
    pub direction: u8,
    pub shared: u32,
    pub pci: u32,
    pub size: u32,
}

// "Above 16,384" is the size of no transfer.
const MOST: u32 = 16384;

impl Request {
    // Causes 7, 8 and 9, as a start, a sound record and one who asks for a source share them.
    pub fn checks(self) -> Result<(), Refusal>
        ensures { refusal_as result ≡ refusal (request_checks (request_as self)) }
    {
        Refusal::EmptyTransfer.when(self.size == 0)?;
        Refusal::Size.when((self.size % 4 != 0) | (MOST < self.size))?;
        Refusal::Address.when(
            access::misplaced(self.shared, self.size, 0, access::SHARED_LENGTH)
                | access::misplaced(self.pci, self.size, 0, access::PCI_LENGTH),
        )
    }
}

// No transfer runs, or one of which so many dwords have been moved: the two states of the part by its names, where an Option would say less.
#[derive(Clone, Copy)]
pub enum Transfer {
    Idle,
    Running(Request, u32),
}

impl Transfer {
    pub fn fresh() -> Transfer
        ensures { transfer_as result ≡ idle }
    {
        Transfer::Idle
    }

    pub fn is_idle(self) -> bool
        ensures { result ≡ is_idle (transfer_as self) }
    {
        matches!(self, Transfer::Idle)
    }

    // "A running transfer meets the start checks with fewer dwords moved than size / 4."
    pub fn sound(self) -> bool
        ensures { result ≡ transfer_sound (transfer_as self) }
    {
        match self {
            Transfer::Idle => true,
            Transfer::Running(request, moved) => {
                (request.direction < 2) & request.checks().is_ok() & (moved < request.size / 4)
            }
        }
    }
}
