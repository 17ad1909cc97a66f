// Document 01, "FIFOs and flags": the four pairs of arbitration flags by value.
#![tactic(auto)]

ghost use Rattle.std.specs.Prelude.{◌≡◌, ◌≤◌, ◌<◌, if◌then◌else◌};
ghost use Rattle.model.specs.Sides.{side_of, other};
ghost use Rattle.model.specs.Arbitration.{pair_sound, arbitration_sound, fresh_arbitration, pair_of, flag, with_flag, with_flag_of, pair_value, flags_value};
ghost use Rattle.arbitration.specs.Bridge.{pair_as, arbitration_as};

#[derive(Clone, Copy, Default)]
pub struct Pair {
    pub host: bool,
    pub local: bool,
}

#[derive(Clone, Copy)]
pub struct Arbitration {
    pub pairs: [Pair; 4],
}

impl Pair {
    // "No pair has both flags set."
    fn sound(self) -> bool
        ensures { result ≡ pair_sound (pair_as self) }
    {
        !(self.host & self.local)
    }

    // the flag of the side other than this one
    pub fn other(self, side: u8) -> bool
        ensures { result ≡ flag (other (side_of side)) (pair_as self) }
    {
        if side == access::HOST {
            self.local
        } else {
            self.host
        }
    }

    pub fn with(self, side: u8, set: bool) -> Pair
        ensures { pair_as result ≡ with_flag (side_of side) set (pair_as self) }
    {
        if side == access::HOST {
            Pair { host: set, ..self }
        } else {
            Pair { local: set, ..self }
        }
    }
}

// A flag at its place in a register.
pub fn weighed(set: bool, weight: u32) -> u32
    ensures value { result ≡ (if set then weight else 0) }
    ensures upper_bound { result ≤ weight }
{
    if set { weight } else { 0 }
}

impl Pair {
    // L4: both flags as a register shows them, the host's in bit 0 and the local side's in bit 1
    pub fn value(self) -> u32
        ensures value { result ≡ pair_value (pair_as self) }
        ensures upper_bound { result ≤ 3 }
    {
        weighed(self.host, 1) + weighed(self.local, 2)
    }
}

impl Arbitration {
    pub fn fresh() -> Arbitration
        ensures { arbitration_as result ≡ fresh_arbitration }
    {
        Arbitration {
            pairs: [Pair::default(); 4],
        }
    }

    // There are four, since the array has so many.
    pub fn sound(self) -> bool
        ensures { result ≡ arbitration_sound (arbitration_as self) }
    {
        self.pairs.iter().all(|pair| pair.sound())
    }

    // The other side's flag of a pair.
    pub fn other(self, side: u8, i: usize) -> bool
        requires { i < 4 }
        ensures { result ≡ flag (other (side_of side)) (pair_of (arbitration_as self) i) }
    {
        self.pairs[i].other(side)
    }

    // A side's flag of a pair, set or clear.
    pub fn with(mut self, side: u8, i: usize, set: bool) -> Arbitration
        requires { i < 4 }
        ensures { arbitration_as result ≡ with_flag_of (side_of side) i set (arbitration_as self) }
    {
        self.pairs[i] = self.pairs[i].with(side, set);
        self
    }

    // L4, ARBUTIL: all eight flags, a byte to a pair.
    pub fn value(self) -> u32
        ensures { result ≡ flags_value (arbitration_as self) }
    {
        u32::from_le_bytes(self.pairs.map(|pair| pair.value() as u8))
    }
}
