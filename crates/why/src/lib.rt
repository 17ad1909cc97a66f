// Document 02, L7: why an event bit reads as it does at the end of a trace. The replay's own function does each record, and what is known of the bit
// follows from what the card shows behind it.
#![tactic(auto)]

ghost use Rattle.std.specs.Prelude.{◌≡◌, true, false, [], ◌∷◌, ◌<◌, ◌≤◌, length};
ghost use Rattle.model.specs.Checks.{◌for◌, refusal, above};
ghost use Rattle.model.specs.Sides.{side_of};
ghost use Rattle.model.specs.State.{sound};
ghost use Rattle.model.specs.Why.{reserved, places, told, why};
ghost use Rattle.access.specs.Bridge.{refusal_as};
ghost use Rattle.card.specs.Bridge.{state_as};
ghost use Rattle.zeroed.specs.Bridge.{zeros};
ghost use Rattle.history.specs.Bridge.{told_as};
ghost use Rattle.why.specs.Bridge.{is_live, fifo_of, entries_for, shown_by};

use access::Refusal;
use card::Card;
use history::{Explanation, History};

// "A trace of at most 4,096 records."
const LONGEST: usize = 81920;

// "Bits 6 and 7 follow FIFOs 1 and 3."
const INBOUND_POST: u8 = 6;

const OUTBOUND_POST: u8 = 7;

fn is_live(position: u8) -> bool
    ensures { result ≡ is_live position }
{
    (position == INBOUND_POST) | (position == OUTBOUND_POST)
}

// The FIFO that a live position follows.
fn fifo_of(position: u8) -> usize
    ensures { (result ≡ fifo_of position) × (result < 4) }
{
    if position == INBOUND_POST { 1 } else { 3 }
}

// What a card shows of a position: whether its bit is set, and how many entries its FIFO holds; 0 where it follows none.
#[derive(Clone, Copy)]
struct Shown {
    up: bool,
    held: u32,
}

fn look(card: Card, side: u8, position: u8) -> Shown
    requires { position < 32 }
    ensures { result ≡ shown_by (side_of side) position (state_as card) }
{
    if is_live(position) {
        let held = card.fifos.held(fifo_of(position));
        return Shown {
            up: held != 0,
            held,
        };
    }
    let register = card.interrupts.register(side);
    Shown {
        up: register.status.has(position),
        held: 0,
    }
}

// The entries that explain a position: those that its FIFO holds, none where it follows none.
fn entries(card: Card, position: u8) -> [u32; 32]
    requires { sound (state_as card) ≡ true }
    ensures { result ≡ places (entries_for position (state_as card)) }
{
    if is_live(position) {
        return card.fifos.entries(fifo_of(position));
    }
    [0; 32]
}

// "43 a side above 1; 42 a position above 9 or reserved there; 41 above 81,920 bytes", in this order.
fn checks(side: u8, position: u8, size: usize) -> Result<(), Refusal>
    ensures { refusal_as result ≡ refusal (43 for above 1 side ∷ 42 for reserved (side_of side) position ∷ 41 for above 81920 size ∷ []) }
{
    Refusal::NoSide.when(side > 1)?;
    Refusal::Reserved.when(events::reserved(side, position))?;
    Refusal::LongTrace.when(size > LONGEST)
}

// Record after record, from the fresh card and zeroed memories.
fn follow(
    shared: &mut [u8],
    window: &mut [u8],
    trace: &[u8],
    side: u8,
    position: u8,
) -> Result<Explanation, Refusal>
    requires shared_value { (shared.old ≡ zeros 16384) × (window.old ≡ zeros 32768) }
    requires side_value { (above 1 side ≡ false) × (reserved (side_of side) position ≡ false) × (above 81920 (length trace.now) ≡ false) }
    ensures { told_as result ≡ told (why trace.now side position) }
{
    let mut standing = standing::start();
    let mut history = History::start();
    for record in trace.chunks(20) {
        let n = standing.expected;
        let Ok(q) = trace::read_record(record, n) else {
            return Err(Refusal::RefusedTrace);
        };
        standing = standing.perform(shared, window, q).standing;
        let shown = look(standing.card, side, position);
        history = history.after(n, shown.up, shown.held);
    }
    Ok(history.told(entries(standing.card, position)))
}

pub fn why(trace: &[u8], side: u8, position: u8) -> Result<Explanation, Refusal>
    ensures { told_as result ≡ told (why trace.now side position) }
{
    checks(side, position, trace.len())?;
    let mut shared = zeroed::bytes::<16384>();
    let mut window = zeroed::bytes::<32768>();
    follow(&mut shared, &mut window, trace, side, position)
}
