// Document 02, L4: what an offset in the 32 KB map names.
#![tactic(auto)]

ghost use Rattle.std.specs.Prelude.{◌≡◌};
ghost use Rattle.model.specs.RegisterMap.{registers, found_in, resource_at, is_modelled};
ghost use Rattle.register_map.specs.Bridge.{resource_as};

use dma::Programmed;

// The sides are numbers, and `Unmodelled` is a case and no `None`, as `register_reads::read_at` and `register_writes::write_at`, which are public, are
// asked for each of these.
#[derive(Clone, Copy)]
pub enum Resource {
    // the FIFO that a read takes from, the one that a write puts into
    Port { taken: u8, put: u8 },
    DmaRegister(Programmed),
    Dmactl,
    Arbutil,
    // by the side whose register it is
    InterruptsOf(u8),
    // by the side that writes it
    MailFrom(u8),
    // an address in shared memory
    SharedAt(u32),
    Unmodelled,
}

impl Resource {
    pub fn is_modelled(self) -> bool
        ensures { result ≡ is_modelled (resource_as self) }
    {
        !matches!(self, Resource::Unmodelled)
    }
}

fn register_at(offset: u32) -> Resource
    ensures { resource_as result ≡ found_in registers offset }
{
    match offset {
        0x0040 => Resource::Port { taken: 0, put: 1 },
        0x0044 => Resource::Port { taken: 3, put: 2 },
        0x0048 => Resource::Port { taken: 1, put: 0 },
        0x004C => Resource::Port { taken: 2, put: 3 },
        0x04B0 => Resource::DmaRegister(Programmed::Dmalbase),
        0x04B4 => Resource::DmaRegister(Programmed::Dmahbase),
        0x04B8 => Resource::DmaRegister(Programmed::Dmasize),
        0x04BC => Resource::Dmactl,
        0x04C0 => Resource::Arbutil,
        0x04E4 => Resource::InterruptsOf(access::HOST),
        0x04E8 => Resource::MailFrom(access::HOST),
        0x04F4 => Resource::InterruptsOf(access::LOCAL),
        0x04F8 => Resource::MailFrom(access::LOCAL),
        _ => Resource::Unmodelled,
    }
}

// "Shared Memory 0x4000-0x7FFF" (document 000, page 8).
pub fn resource_at(offset: u32) -> Resource
    ensures { resource_as result ≡ resource_at offset }
{
    if (offset % 4 == 0) & (0x4000..0x8000).contains(&offset) {
        return Resource::SharedAt(offset - 0x4000);
    }
    register_at(offset)
}
