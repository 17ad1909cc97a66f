// Local pins to lanes: width mode, pins BE[3:0] and data give the lanes and the dword.
#![tactic(auto)]

ghost use Rattle.std.specs.Prelude.{◌≡◌, ◌≤◌, get_or};
ghost use Rattle.model.specs.Pins.{lanes16, motorola_rows, lanes_of, decode};
ghost use Rattle.pins.specs.Bridge.{decoded_as, one_lane, carried_in, refused_decoded};

use access::Refusal;

#[derive(Clone, Copy)]
pub struct Decoded {
    pub lanes: u8,
    pub dword: u32,
}

impl Decoded {
    // What stands beside the number of a refusal: "lanes 15, dword 0".
    pub fn refused() -> Decoded
        ensures { result ≡ refused_decoded }
    {
        Decoded {
            lanes: lanes::NO_LANES,
            dword: 0,
        }
    }
}

// The lane mask that enables one lane alone: mode 0's, and those that mode 2 is made of.
fn one_lane(lane: u8) -> u8
    requires { lane ≤ 3 }
    ensures { result ≡ one_lane lane }
{
    lanes::NO_LANES ^ (1 << lane)
}

// Mode 1: BE[3] is A1 and picks the upper or the lower two lanes; BE[1:0] are their lane bits.
fn lanes_16(pins: u8) -> u8
    ensures { result ≡ lanes16 pins }
{
    let enables = pins % 4;
    if pins / 8 % 2 == 1 {
        enables * 4 + 0b0011
    } else {
        0b1100 + enables
    }
}

// Mode 2: BE[3:2] is the size, and BE[1:0] the address, which picks the lane, big end first. Document 02, L3: "an odd address
// enables one lane, an even one two, unless the size code is 01"; the second is the one below.
fn lanes_motorola(pins: u8) -> u8
    requires { pins ≤ 15 }
    ensures { result ≡ get_or motorola_rows pins 15 }
{
    let size = pins / 4;
    let address = pins % 4;
    let lane = 3 - address;
    if (address % 2 == 1) | (size == 0b01) {
        one_lane(lane)
    } else {
        one_lane(lane) & one_lane(lane - 1)
    }
}

// The lane mask of a mode, a byte as `decode` is handed it, and its pins. Mode 0: "BE[3:2] is A1 A0 and picks the one lane"; mode 3: "lanes are the pins".
fn mask(mode: u8, pins: u8) -> u8
    requires { (mode ≤ 3) × (pins ≤ 15) }
    ensures { result ≡ lanes_of mode pins }
{
    match mode {
        0 => one_lane(pins / 4),
        1 => lanes_16(pins),
        2 => lanes_motorola(pins),
        _ => pins,
    }
}

// What lanes 0 to 3 carry of the data: "in modes 1 and 2 lanes 3 and 1 carry DQ[15:8], lanes 2 and 0 carry DQ[7:0]".
fn carried(mode: u8, dq: u32) -> [u8; 4]
    requires { mode ≤ 3 }
    ensures { result ≡ carried_in mode dq }
{
    let b = lanes::bytes_of(dq);
    match mode {
        0 => [b[0]; 4],
        1 | 2 => [b[0], b[1], b[0], b[1]],
        _ => b,
    }
}

// "Mode above 3 or pins above 15 is refused with 4, lanes 15, dword 0." Else "unused lanes are 0".
#[tactic(auto, using(model::proofs::PinLaws::decode_is), unfolding(model::specs::Pins::decode))]
pub fn decode(mode: u8, pins: u8, dq: u32) -> Result<Decoded, Refusal>
    ensures { decoded_as result ≡ decode mode pins dq }
{
    Refusal::Selector.when((mode > 3) | (pins > 15))?;
    let lanes = mask(mode, pins);
    let held = lanes::merged([0; 4], carried(mode, dq), lanes);
    Ok(Decoded {
        lanes,
        dword: lanes::dword_of(held),
    })
}
