// Document 01, "Interrupt registers": interrupt read, interrupt write, line and external pin, kinds 11, 12, 13 and 16, each with its own checks first.
#![tactic(auto)]

ghost use Rattle.std.specs.Prelude.{◌≡◌, true, List, [], ◌∷◌, ℕ, if◌then◌else◌};
ghost use Rattle.model.specs.Checks.{refusal, ◌for◌, nonzero};
ghost use Rattle.model.specs.Sides.{host, side_of, not_by, local};
ghost use Rattle.model.specs.Events.{external};
ghost use Rattle.model.specs.State.{sound};
ghost use Rattle.model.specs.Changes.{raised, done};
ghost use Rattle.model.specs.InterruptRegisters.{register_written, live_of, register_read, line_active};
ghost use Rattle.model.specs.Accesses as model;
ghost use Rattle.access.specs.Bridge.{refusal_as};
ghost use Rattle.card.specs.Bridge.{state_as, Effected, Did};

use access::{Access, Refusal};
use card::{Card, Outcome};
use events::EventSet;

// "Bits 6 and 7 follow FIFOs 1 and 3."
fn live(card: Card) -> EventSet
    ensures { result.0 ≡ live_of (state_as card).fifos }
{
    let inbound = events::INBOUND_POST.only_if(!card.fifos.is_empty(1));
    let outbound = events::OUTBOUND_POST.only_if(!card.fifos.is_empty(3));
    inbound.insert(outbound)
}

// "Caller's own register."
fn read_register(card: Card, side: u8) -> Outcome
    requires { sound (state_as card) ≡ true }
    ensures { Effected (done (register_read (side_of side) (state_as card)) 0 []) card result }
{
    let register = card.interrupts.register(side);
    card.done(register.value(live(card)), 0)
}

fn write_register(card: Card, side: u8, value: u32) -> Outcome
    ensures { Effected (register_written (side_of side) value) card result }
{
    let interrupts = card.interrupts.write(side, value);
    card.with_interrupts(interrupts).done(0, 0)
}

// "V 1 active, else 0."
fn line_level(card: Card, side: u8) -> Outcome
    ensures { Effected (done (if line_active (side_of side) (state_as card) then 1 else 0) 0 []) card result }
{
    let register = card.interrupts.register(side);
    card.done(register.line(live(card)) as u32, 0)
}

// "Raises host event 4."
fn raise_external(card: Card) -> Outcome
    ensures { Effected (done 0 0 (raised host external ∷ [])) card result }
{
    let interrupts = card.interrupts.raise(access::HOST, events::EXTERNAL);
    card.with_interrupts(interrupts).done(0, 0)
}

fn pin_checks(q: Access) -> Result<(), Refusal>
    ensures { refusal_as result ≡ refusal ((3 for nonzero (q.s ∷ q.a ∷ q.b ∷ q.c ∷ [])) ∷ (5 for not_by local (side_of q.side)) ∷ []) }
{
    Refusal::UnusedField.when(access::nonzero(q.s, q.a, q.b, q.c))?;
    Refusal::WrongSide.when(access::wrong_side(access::LOCAL, q.side))
}

// KINDS

// 11 interrupt read; a sound record's register fits V
pub fn read(card: Card, q: Access) -> Outcome
    requires { sound (state_as card) ≡ true }
    ensures { (m w : List ℕ) → Did model.interrupt_read card q m w result m w }
{
    if let Err(refusal) = access::no_field(q) {
        return card.refused(refusal);
    }
    read_register(card, q.side)
}

// 12 interrupt write
pub fn write(card: Card, q: Access) -> Outcome
    ensures { (m w : List ℕ) → Did model.interrupt_write card q m w result m w }
{
    if let Err(refusal) = access::value_only(q) {
        return card.refused(refusal);
    }
    write_register(card, q.side, q.b)
}

// 13 line
pub fn line(card: Card, q: Access) -> Outcome
    ensures { (m w : List ℕ) → Did model.line card q m w result m w }
{
    if let Err(refusal) = access::no_field(q) {
        return card.refused(refusal);
    }
    line_level(card, q.side)
}

// 16 external pin
pub fn external_pin(card: Card, q: Access) -> Outcome
    ensures { (m w : List ℕ) → Did model.external_pin card q m w result m w }
{
    if let Err(refusal) = pin_checks(q) {
        return card.refused(refusal);
    }
    raise_external(card)
}
