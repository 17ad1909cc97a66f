// Document 02, L4: ARBUTIL, all arbitration flags in one register. A write is a claim or a release of each pair, one after another.
#![tactic(auto)]

ghost use Rattle.std.specs.Prelude.{◌≡◌, not, List, ℕ, ◌^◌, ◌≤◌, ◌<◌, eqb, if◌then◌else◌};
ghost use Rattle.model.specs.Sides.{side_of};
ghost use Rattle.model.specs.Arbitration.{flag_bit};
ghost use Rattle.model.specs.RegisterMap.{arbutil};
ghost use Rattle.model.specs.Registers.{flag_written, read_row, write_row};
ghost use Rattle.access.specs.Bridge.{answer_as};
ghost use Rattle.card.specs.Bridge.{world_as, Effected, Settles};
ghost use Rattle.arbutil.specs.Bridge.{Wrote};

use access::{Answer, Done, Kind};
use card::{Card, Outcome};

pub fn read(card: Card, side: u8, dword: u32) -> Outcome
    ensures { (m w : List ℕ) → Settles (read_row arbutil (world_as card m w) (side_of side) dword) card m w result m w }
{
    plain_read::told(card, dword, card.arbitration.value())
}

// The bit of a side's flag: a byte to a pair, in it the host's flag first.
fn bit_of(side: u8, pair: u8) -> u32
    requires { pair < 4 }
    ensures { result ≡ 2 ^ flag_bit (side_of side) pair }
{
    let own = if side == access::HOST { 0 } else { 1 };
    1 << (8 * pair as u32 + own)
}

// A 1 at the bit of the caller's flag claims it, a 0 releases it.
#[inline(always)]
fn write_flag(card: Card, side: u8, dword: u32, pair: u8, bit: u32) -> Outcome
    requires pair_bound { pair < 4 }
    requires bit_value { bit ≡ 2 ^ flag_bit (side_of side) pair }
    ensures { (m w : List ℕ) → Effected (flag_written (world_as card m w) (side_of side) dword pair) card result }
{
    if dword / bit % 2 == 1 {
        return arbitration_access::claim(card, access::asked(Kind::Claim as u8, side, pair, 0, 0));
    }
    arbitration_access::release(card, access::asked(Kind::Release as u8, side, pair, 0, 0))
}

// V of a claim or a release, at the flag's bit.
fn at_bit(answer: Answer, bit: u32) -> u32
    ensures value { result ≡ (if not (eqb (answer_as answer).v 0) then bit else 0) }
    ensures upper_bound { result ≤ bit }
{
    match answer {
        Ok(Done { v, .. }) => arbitration::weighed(v != 0, bit),
        Err(_) => 0,
    }
}

// The card with a flag claimed or released, and V at its bit.
#[derive(Clone, Copy)]
struct Written {
    card: Card,
    flag: u32,
}

#[inline(always)]
fn write_pair(card: Card, side: u8, dword: u32, pair: u8) -> Written
    requires { pair < 4 }
    ensures by_index { (m w : List ℕ) → Wrote (world_as card m w) (side_of side) dword pair result.card result.flag m w }
    ensures flag_bound { result.flag ≤ 33554432 }
{
    let bit = bit_of(side, pair);
    let written = write_flag(card, side, dword, pair, bit);
    Written {
        card: written.card,
        flag: at_bit(written.answer, bit),
    }
}

// Pair after pair, each its own line: by a loop over the pairs the card goes through memory from one to the next.
pub fn write(card: Card, side: u8, dword: u32) -> Outcome
    ensures { (m w : List ℕ) → Settles (write_row arbutil (world_as card m w) (side_of side) dword) card m w result m w }
{
    let first = write_pair(card, side, dword, 0);
    let second = write_pair(first.card, side, dword, 1);
    let third = write_pair(second.card, side, dword, 2);
    let fourth = write_pair(third.card, side, dword, 3);
    let flags = first.flag + (second.flag + (third.flag + fourth.flag));
    fourth.card.done(flags, 0)
}
