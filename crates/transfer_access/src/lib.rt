// Document 01, "Transfer": the start, kind 14, and the step, kind 15, each with its own checks first.
#![tactic(auto)]

ghost use Rattle.std.specs.Prelude.{◌≡◌, true, not, List, [], ◌∷◌, ℕ, ◌+◌, ◌*◌, ◌/◌, ◌<◌, ◌≤◌, length};
ghost use Rattle.model.specs.Checks.{refusal, ◌for◌, nonzero};
ghost use Rattle.model.specs.Events.{Event, mask};
ghost use Rattle.model.specs.Transfer.{running, direction_check, request_checks};
ghost use Rattle.model.specs.Changes.{transfer_is, done};
ghost use Rattle.model.specs.Steps.{stepped};
ghost use Rattle.model.specs.Accesses.{fit};
ghost use Rattle.model.specs.Accesses as model;
ghost use Rattle.access.specs.Bridge.{refusal_as};
ghost use Rattle.settings.specs.Bridge.{settings_as};
ghost use Rattle.transfer.specs.Bridge.{request_as};
ghost use Rattle.card.specs.Bridge.{world_as, Effected, Stored, Did};
ghost use Rattle.transfer_access.specs.Bridge.{StepFits, Copied, ending};

use access::{Access, Refusal};
use card::{Card, Outcome};
use events::EventSet;
use transfer::{Request, Transfer};

// 14 START

// A start uses every field, and so never gives 3.
fn check_start(request: Request, idle: bool) -> Result<(), Refusal>
    ensures { refusal_as result ≡ refusal (direction_check (request_as request) ∷ (6 for not idle) ∷ request_checks (request_as request)) }
{
    Refusal::Selector.when(1 < request.direction)?;
    Refusal::Busy.when(!idle)?;
    request.checks()
}

// "V = size / 4."
fn begin(card: Card, request: Request) -> Outcome
    ensures { Effected (done (request.size / 4) 0 (transfer_is (running (request_as request) 0) ∷ [])) card result }
{
    card.with_transfer(Transfer::Running(request, 0))
        .done(request.size / 4, 0)
}

pub fn start(card: Card, q: Access) -> Outcome
    ensures { (m w : List ℕ) → Did model.start card q m w result m w }
{
    let request = Request {
        direction: q.s,
        shared: q.a,
        pci: q.b,
        size: q.c,
    };
    if let Err(refusal) = check_start(request, card.transfer.is_idle()) {
        return card.refused(refusal);
    }
    begin(card, request)
}

// 15 STEP

// "One dword is copied as it stands then": direction 0 is window to shared, 1 shared to window.
fn copy(shared: &mut [u8], window: &mut [u8], direction: u8, at: usize, offset: usize)
    requires { (at + 4 ≤ length shared.old) × (offset + 4 ≤ length window.old) }
    ensures { Copied direction at offset shared.old window.old shared.new window.new }
{
    if direction == 0 {
        let v = lanes::read_dword(window, offset, lanes::ALL_LANES);
        lanes::write_dword(shared, at, lanes::ALL_LANES, v);
    } else {
        let v = lanes::read_dword(shared, at, lanes::ALL_LANES);
        lanes::write_dword(window, offset, lanes::ALL_LANES, v);
    }
}

// The transfer ends, with an event in both registers.
fn ended(card: Card, events: EventSet, v: u32, x: u32) -> Outcome
    ensures { (e : Event) → events.0 ≡ mask e → Effected (ending v x e) card result }
{
    card.with_transfer(Transfer::Idle)
        .with_interrupts(card.interrupts.raise_both(events))
        .done(v, x)
}

// The address of dword i of a range.
fn dword_at(from: u32, i: u32) -> u32
    requires { from + 4 * i < 4294967296 }
    ensures { result ≡ from + 4 * i }
{
    from + 4 * i
}

// "A step treats dword i, counting from 0, at PCI address B + 4i."
fn advance(
    card: Card,
    shared: &mut [u8],
    window: &mut [u8],
    request: Request,
    moved: u32,
) -> Outcome
    requires { StepFits (settings_as card.settings) (request_as request) moved shared.old window.old }
    ensures { Stored (stepped (world_as card shared.old window.old) (running (request_as request) moved)) card shared.old window.old result shared.new window.new }
{
    let settings = card.settings;
    let pci = dword_at(request.pci, moved);
    if settings.in_abort_range(pci) {
        return ended(card, events::TARGET_ABORT, 3, moved);
    }
    if settings.outside_window(pci, 4) {
        return ended(card, events::MASTER_ABORT, 4, moved);
    }
    let at = dword_at(request.shared, moved) as usize;
    copy(shared, window, request.direction, at, settings.offset(pci));
    let next = moved + 1;
    if next == request.size / 4 {
        return ended(card, events::DMA_COMPLETE, 2, next);
    }
    card.with_transfer(Transfer::Running(request, next))
        .done(1, next)
}

pub fn step(card: Card, shared: &mut [u8], window: &mut [u8], q: Access) -> Outcome
    requires { fit (world_as card shared.old window.old) ≡ true }
    ensures { Did model.step card q shared.old window.old result shared.new window.new }
{
    if let Err(refusal) = access::no_field(q) {
        return card.refused(refusal);
    }
    match card.transfer {
        Transfer::Idle => card.refused(Refusal::NotRunning),
        Transfer::Running(request, moved) => advance(card, shared, window, request, moved),
    }
}
