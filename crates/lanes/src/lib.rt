// A dword as its four bytes, by value, merged under a lane mask; a dword read and written in a lent memory.
#![tactic(auto)]

ghost use Rattle.std.specs.Prelude.{◌≡◌, ◌+◌, ◌*◌, ◌<◌, ◌≤◌, length, if◌then◌else◌};
ghost use Rattle.model.specs.Lanes.{dword_of, bytes_of, enabled, lane_values, byte_at, read_dword, write_dword};
ghost use Rattle.lanes.specs.Bridge.{merge};

// "Lane bits are active low: 0 enables": the lane masks of all four lanes and of none.
pub const ALL_LANES: u8 = 0;

pub const NO_LANES: u8 = 15;

// "A dword is four bytes, lane 0 first, and lane 0 holds bits 7 to 0."
pub fn dword_of(bytes: [u8; 4]) -> u32
    ensures { result ≡ dword_of bytes }
{
    u32::from_le_bytes(bytes)
}

// The four bytes of a dword, lane 0 first.
pub fn bytes_of(dword: u32) -> [u8; 4]
    ensures { result ≡ bytes_of 4 dword }
{
    dword.to_le_bytes()
}

// "Lane bits are active low: 0 enables." The lowest lane of the mask takes the new byte or keeps the old one.
fn lane(old: u8, new: u8, lanes: u8) -> u8
    ensures { result ≡ (if enabled lanes then new else old) }
{
    if lanes % 2 == 0 { new } else { old }
}

// Four bytes of which the enabled lanes are new and the others old.
pub fn merged(old: [u8; 4], new: [u8; 4], lanes: u8) -> [u8; 4]
    ensures { result ≡ merge lanes old new }
{
    [
        lane(old[0], new[0], lanes),
        lane(old[1], new[1], lanes / 2),
        lane(old[2], new[2], lanes / 2 / 2),
        lane(old[3], new[3], lanes / 2 / 2 / 2),
    ]
}

// The four bytes of a memory from an address on: what the lanes hold where all are enabled.
pub fn bytes_at(mem: &[u8], at: usize) -> [u8; 4]
    requires { at + 4 ≤ length mem.now }
    ensures { result ≡ lane_values 4 (byte_at mem.now) at 0 }
{
    [mem[at], mem[at + 1], mem[at + 2], mem[at + 3]]
}

// The dword at an address of a memory, "disabled lanes 0".
pub fn read_dword(mem: &[u8], at: usize, lanes: u8) -> u32
    requires { at + 4 ≤ length mem.now }
    ensures { result ≡ read_dword mem.now at lanes }
{
    dword_of(merged([0, 0, 0, 0], bytes_at(mem, at), lanes))
}

// "Enabled lanes stored": the other bytes of the memory stay.
pub fn write_dword(mem: &mut [u8], at: usize, lanes: u8, dword: u32)
    requires { at + 4 ≤ length mem.old }
    ensures { mem.new ≡ write_dword mem.old at lanes dword }
{
    let stored = merged(bytes_at(mem, at), bytes_of(dword), lanes);
    mem[at..at + 4].copy_from_slice(&stored);
}
