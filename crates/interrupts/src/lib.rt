// Document 01, "Interrupt registers": HINT and LINT by value.
#![tactic(auto)]

ghost use Rattle.std.specs.Prelude.{◌≡◌, ◌/◌};
ghost use Rattle.model.specs.Sides.{side_of};
ghost use Rattle.model.specs.Events.{common, enable_mask};
ghost use Rattle.model.specs.Interrupts.{fresh_interrupts, interrupts_sound, register, on_register, cleared_in, enables_in};
ghost use Rattle.events.specs.Bridge.{register_as, raised_all};
ghost use Rattle.interrupts.specs.Bridge.{interrupts_as, raised_both};

use events::{EventSet, Register};

// "HINT is the host's, LINT (0x04F4) the local side's."
#[derive(Clone, Copy, Default)]
pub struct Interrupts {
    pub hint: Register,
    pub lint: Register,
}

impl Interrupts {
    pub fn fresh() -> Interrupts
        ensures { interrupts_as result ≡ fresh_interrupts }
    {
        Interrupts::default()
    }

    pub fn sound(self) -> bool
        ensures { result ≡ interrupts_sound (interrupts_as self) }
    {
        self.hint.sound(access::HOST) & self.lint.sound(access::LOCAL)
    }

    // "Caller's own register."
    pub fn register(self, side: u8) -> Register
        ensures { register_as result ≡ register (side_of side) (interrupts_as self) }
    {
        if side == access::HOST {
            self.hint
        } else {
            self.lint
        }
    }

    fn with(self, side: u8, register: Register) -> Interrupts
        ensures { interrupts_as result ≡ on_register (side_of side) (λ _. register_as register) (interrupts_as self) }
    {
        if side == access::HOST {
            Interrupts {
                hint: register,
                ..self
            }
        } else {
            Interrupts {
                lint: register,
                ..self
            }
        }
    }

    pub fn raise(self, side: u8, events: EventSet) -> Interrupts
        ensures { interrupts_as result ≡ on_register (side_of side) (raised_all events.0) (interrupts_as self) }
    {
        self.with(side, self.register(side).raise(events))
    }

    // "Raised in both registers."
    pub fn raise_both(self, events: EventSet) -> Interrupts
        ensures { interrupts_as result ≡ raised_both events.0 (interrupts_as self) }
    {
        self.raise(access::HOST, events)
            .raise(access::LOCAL, events)
    }

    // "A write replaces the enables .. and clears each status bit where it has a 1."
    pub fn write(self, side: u8, value: u32) -> Interrupts
        ensures { interrupts_as result ≡ on_register (side_of side) (cleared_in value) (on_register (side_of side) (enables_in (common (value / 65536) (enable_mask (side_of side)))) (interrupts_as self)) }
    {
        self.with(side, self.register(side).write(side, value))
    }
}
