// Document 01, "Accesses": reads and writes of the two memories, each kind with its own checks first.
#![tactic(auto)]

ghost use Rattle.std.specs.Prelude.{◌≡◌, List, ℕ, length};
ghost use Rattle.model.specs.Checks.{refusal, shared_length};
ghost use Rattle.model.specs.Sides.{side_of};
ghost use Rattle.model.specs.Accesses as model;
ghost use Rattle.access.specs.Bridge.{refusal_as};
ghost use Rattle.settings.specs.Bridge.{settings_as};
ghost use Rattle.card.specs.Bridge.{Did};
ghost use Rattle.memory_access.specs.Bridge.{shared_checks, window_checks};

use access::{Access, Refusal};
use card::{Card, Outcome};
use settings::Settings;

// CHECKS. Of the fields B and C, reads use neither and writes use B; a caller hands in 0 for a field that its kind uses.

// Kinds 1 and 2: S a lane mask, A an address of shared memory.
fn check_shared(q: Access, b: u32) -> Result<(), Refusal>
    ensures { refusal_as result ≡ refusal (shared_checks q.s q.a b q.c) }
{
    Refusal::UnusedField.when(access::nonzero(0, 0, b, q.c))?;
    Refusal::Selector.when(15 < q.s)?;
    Refusal::Address.when(access::misplaced(q.a, 4, 0, access::SHARED_LENGTH))
}

// Kinds 3 and 4, "host only": A is a PCI address.
fn check_window(settings: Settings, q: Access, b: u32) -> Result<(), Refusal>
    ensures { refusal_as result ≡ refusal (window_checks (settings_as settings) (side_of q.side) q.s q.a b q.c) }
{
    Refusal::UnusedField.when(access::nonzero(0, 0, b, q.c))?;
    Refusal::Selector.when(15 < q.s)?;
    Refusal::WrongSide.when(access::wrong_side(access::HOST, q.side))?;
    Refusal::Address.when(settings.outside_window(q.a, 4))
}

// READS AND WRITES, of a memory each, whose checks and places differ

// 1 shared read
pub fn shared_read(card: Card, shared: &[u8], q: Access) -> Outcome
    requires { length shared.now ≡ shared_length }
    ensures { (w : List ℕ) → Did model.shared_read card q shared.now w result shared.now w }
{
    if let Err(refusal) = check_shared(q, q.b) {
        return card.refused(refusal);
    }
    card.done(lanes::read_dword(shared, q.a as usize, q.s), 0)
}

// 2 shared write
pub fn shared_write(card: Card, shared: &mut [u8], q: Access) -> Outcome
    requires { length shared.old ≡ shared_length }
    ensures { (w : List ℕ) → Did model.shared_write card q shared.old w result shared.new w }
{
    if let Err(refusal) = check_shared(q, 0) {
        return card.refused(refusal);
    }
    lanes::write_dword(shared, q.a as usize, q.s, q.b);
    card.done(0, 0)
}

// 3 window read
pub fn window_read(card: Card, window: &[u8], q: Access) -> Outcome
    requires { length window.now ≡ card.settings.length }
    ensures { (m : List ℕ) → Did model.window_read card q m window.now result m window.now }
{
    if let Err(refusal) = check_window(card.settings, q, q.b) {
        return card.refused(refusal);
    }
    card.done(lanes::read_dword(window, card.settings.offset(q.a), q.s), 0)
}

// 4 window write
pub fn window_write(card: Card, window: &mut [u8], q: Access) -> Outcome
    requires { length window.old ≡ card.settings.length }
    ensures { (m : List ℕ) → Did model.window_write card q m window.old result m window.new }
{
    if let Err(refusal) = check_window(card.settings, q, 0) {
        return card.refused(refusal);
    }
    lanes::write_dword(window, card.settings.offset(q.a), q.s, q.b);
    card.done(0, 0)
}
