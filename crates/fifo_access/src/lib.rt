// Document 01, "FIFOs and flags", with the answers of document 02, L2: take and put, kinds 5 and 6, each with its own checks first.
#![tactic(auto)]

ghost use Rattle.std.specs.Prelude.{◌≡◌, List, [], ◌∷◌, ℕ, ◌<◌};
ghost use Rattle.model.specs.Checks.{refusal, ◌for◌, above};
ghost use Rattle.model.specs.Sides.{side_of, not_by};
ghost use Rattle.model.specs.Events.{mask};
ghost use Rattle.model.specs.Fifos.{entries_of, putter, taker};
ghost use Rattle.model.specs.FifosAndFlags.{overflow, taken_from, put_into};
ghost use Rattle.model.specs.Accesses as model;
ghost use Rattle.access.specs.Bridge.{refusal_as};
ghost use Rattle.card.specs.Bridge.{state_as, Effected, Did};

use access::{Access, Refusal};
use card::{Card, Outcome};
use events::EventSet;

// CHECKS

// "Who puts": the local side into FIFOs 0 and 3, the host into 1 and 2.
fn putter(fifo: u8) -> u8
    ensures { side_of result ≡ putter fifo }
{
    if (fifo == 0) | (fifo == 3) {
        access::LOCAL
    } else {
        access::HOST
    }
}

fn taker(fifo: u8) -> u8
    ensures { side_of result ≡ taker fifo }
{
    access::other_side(putter(fifo))
}

// Kinds 5 and 6 differ in their unused fields, and in the one side that may.
fn fifo_checks(q: Access, unused: bool, may: u8) -> Result<(), Refusal>
    ensures { refusal_as result ≡ refusal ((3 for unused) ∷ (4 for above 3 q.s) ∷ (5 for not_by (side_of may) (side_of q.side)) ∷ []) }
{
    Refusal::UnusedField.when(unused)?;
    Refusal::Selector.when(3 < q.s)?;
    Refusal::WrongSide.when(access::wrong_side(may, q.side))
}

// WHAT IS DONE

// "if empty V 4,294,967,295"
const NO_ENTRY: u32 = 4294967295;

// "V entry"; X the entries held before it.
fn take_entry(card: Card, i: usize) -> Outcome
    requires { i < 4 }
    ensures { Effected (taken_from i (entries_of (state_as card).fifos i)) card result }
{
    let held = card.fifos.held(i);
    match card.fifos.take(i) {
        Some(taken) => card.with_fifos(taken.fifos).done(taken.entry, held),
        None => card.done(NO_ENTRY, 0),
    }
}

// The event of a put that a side loses.
fn lost_event(side: u8) -> EventSet
    ensures { result.0 ≡ mask (overflow (side_of side)) }
{
    if side == access::HOST {
        events::PCI_OVERFLOW
    } else {
        events::LOCAL_OVERFLOW
    }
}

// V the entries held after it; "X 1 held; X 0 lost to overflow", with its event in both registers.
fn put_entry(card: Card, side: u8, i: usize, entry: u32) -> Outcome
    requires { i < 4 }
    ensures { Effected (put_into (side_of side) i (entries_of (state_as card).fifos i) entry) card result }
{
    match card.fifos.put(i, entry) {
        Some(longer) => card.with_fifos(longer).done(longer.held(i), 1),
        None => {
            let interrupts = card.interrupts.raise_both(lost_event(side));
            card.with_interrupts(interrupts).done(fifos::ROOM, 0)
        }
    }
}

// KINDS

// 5 take
pub fn take(card: Card, q: Access) -> Outcome
    ensures { (m w : List ℕ) → Did model.take card q m w result m w }
{
    if let Err(refusal) = fifo_checks(q, access::nonzero(0, q.a, q.b, q.c), taker(q.s)) {
        return card.refused(refusal);
    }
    take_entry(card, q.s as usize)
}

// 6 put
pub fn put(card: Card, q: Access) -> Outcome
    ensures { (m w : List ℕ) → Did model.put card q m w result m w }
{
    if let Err(refusal) = fifo_checks(q, access::nonzero(0, q.a, 0, q.c), putter(q.s)) {
        return card.refused(refusal);
    }
    put_entry(card, q.side, q.s as usize, q.b)
}
