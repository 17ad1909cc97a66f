// Document 01, "Interrupt registers": sets of events, and a register by value.
#![tactic(auto)]

ghost use Rattle.std.specs.Prelude.{◌≡◌, not, ◌/◌, ◌<◌, eqb, if◌then◌else◌};
ghost use Rattle.std.specs.Int.Bits.{bit_or};
ghost use Rattle.model.specs.Sides.{side_of};
ghost use Rattle.model.specs.Events.{bit, common, without, within, stored_mask, enable_mask};
ghost use Rattle.model.specs.Interrupts.{fresh_register, register_sound, cleared_in, enables_in, register_value, active};
ghost use Rattle.model.specs.Why.{reserved};
ghost use Rattle.events.specs.Bridge.{register_as, raised_all};

// A set of events: the bit at an event's position says whether it is in.
#[derive(Clone, Copy, Default)]
pub struct EventSet(pub u32);

pub const NONE: EventSet = EventSet(0);

// "Event positions have one set of names for both." Position 2 is reserved.
pub const LOCAL_OVERFLOW: EventSet = EventSet(1 << 0);

pub const PCI_OVERFLOW: EventSet = EventSet(1 << 1);

pub const MAILBOX: EventSet = EventSet(1 << 3);

pub const EXTERNAL: EventSet = EventSet(1 << 4);

pub const DMA_COMPLETE: EventSet = EventSet(1 << 5);

pub const INBOUND_POST: EventSet = EventSet(1 << 6);

pub const OUTBOUND_POST: EventSet = EventSet(1 << 7);

pub const TARGET_ABORT: EventSet = EventSet(1 << 8);

pub const MASTER_ABORT: EventSet = EventSet(1 << 9);

impl EventSet {
    pub fn insert(self, events: EventSet) -> EventSet
        ensures { result.0 ≡ bit_or self.0 events.0 }
    {
        EventSet(self.0 | events.0)
    }

    pub fn remove(self, events: EventSet) -> EventSet
        ensures { result.0 ≡ without self.0 events.0 }
    {
        EventSet(self.0 & !events.0)
    }

    // every one of the events is in
    pub fn contains(self, events: EventSet) -> bool
        ensures { result ≡ within events.0 self.0 }
    {
        events.0 & self.0 == events.0
    }

    // the event at a position is in
    pub fn has(self, position: u8) -> bool
        requires { position < 32 }
        ensures { result ≡ bit position self.0 }
    {
        (self.0 >> position) % 2 == 1
    }

    // the events that are in both
    fn common(self, events: EventSet) -> EventSet
        ensures { result.0 ≡ common self.0 events.0 }
    {
        EventSet(self.0 & events.0)
    }

    // some event is in both
    fn meets(self, events: EventSet) -> bool
        ensures { result ≡ not (eqb (common self.0 events.0) 0) }
    {
        self.0 & events.0 != 0
    }

    // the events, where they apply
    pub fn only_if(self, cause: bool) -> EventSet
        ensures { result.0 ≡ (if cause then self.0 else 0) }
    {
        if cause { self } else { NONE }
    }
}

// The events whose status a side's register stores: not bits 6 and 7.
fn stored_mask(side: u8) -> EventSet
    ensures { result.0 ≡ stored_mask (side_of side) }
{
    let both = LOCAL_OVERFLOW
        .insert(PCI_OVERFLOW)
        .insert(MAILBOX)
        .insert(DMA_COMPLETE)
        .insert(TARGET_ABORT)
        .insert(MASTER_ABORT);
    if side == access::HOST {
        both.insert(EXTERNAL)
    } else {
        both
    }
}

// "Enable bits exist for that side": those that follow a FIFO, and those stored.
fn enable_mask(side: u8) -> EventSet
    ensures { result.0 ≡ enable_mask (side_of side) }
{
    stored_mask(side).insert(OUTBOUND_POST).insert(INBOUND_POST)
}

// "A position above 9 or reserved there" (document 02, L7): a side's register has enables at the others.
pub fn reserved(side: u8, position: u8) -> bool
    ensures { result ≡ reserved (side_of side) position }
{
    position > 9 || !enable_mask(side).has(position)
}

// An interrupt register: the enables, and the event status that is stored.
#[derive(Clone, Copy, Default)]
pub struct Register {
    pub enables: EventSet,
    pub status: EventSet,
}

impl Register {
    pub fn fresh() -> Register
        ensures { register_as result ≡ fresh_register }
    {
        Register::default()
    }

    pub fn raise(self, events: EventSet) -> Register
        ensures { register_as result ≡ raised_all events.0 (register_as self) }
    {
        Register {
            status: self.status.insert(events),
            ..self
        }
    }

    // "A write replaces the enables (reserved positions stay 0) and clears each status bit where it has a 1. A 0 clears nothing."
    pub fn write(self, side: u8, value: u32) -> Register
        ensures { register_as result ≡ cleared_in value (enables_in (common (value / 65536) (enable_mask (side_of side))) (register_as self)) }
    {
        Register {
            enables: EventSet(value >> 16).common(enable_mask(side)),
            status: self.status.remove(EventSet(value)),
        }
    }

    // "Enables are bits 25 to 16, event status bits 9 to 0." `live` are the bits that follow FIFOs 1 and 3.
    pub fn value(self, live: EventSet) -> u32
        requires { (self.enables.0 < 65536) × (self.status.0 < 65536) × (live.0 < 65536) }
        ensures { result ≡ register_value live.0 (register_as self) }
    {
        let status = self.status.insert(live);
        self.enables.0 * 65536 + status.0
    }

    // "A line is active exactly when some position has status and enable both set."
    pub fn line(self, live: EventSet) -> bool
        ensures { result ≡ active live.0 (register_as self) }
    {
        self.status.insert(live).meets(self.enables)
    }

    // "Stored event bits exist for that side and exclude 6 and 7, enable bits exist for that side."
    pub fn sound(self, side: u8) -> bool
        ensures { result ≡ register_sound (side_of side) (register_as self) }
    {
        stored_mask(side).contains(self.status) & enable_mask(side).contains(self.enables)
    }
}
