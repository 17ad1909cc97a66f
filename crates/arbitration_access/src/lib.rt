// Document 01, "FIFOs and flags": claim and release, kinds 7 and 8, each with its own checks first.
#![tactic(auto)]

ghost use Rattle.std.specs.Prelude.{◌≡◌, false, List, [], ◌∷◌, ℕ, ◌<◌};
ghost use Rattle.model.specs.Checks.{refusal, ◌for◌, nonzero, above};
ghost use Rattle.model.specs.Sides.{side_of};
ghost use Rattle.model.specs.Arbitration.{pair_of};
ghost use Rattle.model.specs.Changes.{flag_is, apply, done};
ghost use Rattle.model.specs.FifosAndFlags.{claimed};
ghost use Rattle.model.specs.Accesses as model;
ghost use Rattle.access.specs.Bridge.{refusal_as};
ghost use Rattle.card.specs.Bridge.{state_as, Effected, Did};

use access::{Access, Refusal};
use card::{Card, Outcome};

// Kinds 7 and 8 use S, a pair.
fn check_pair(q: Access) -> Result<(), Refusal>
    ensures { refusal_as result ≡ refusal ((3 for nonzero (q.a ∷ q.b ∷ q.c ∷ [])) ∷ (4 for above 3 q.s) ∷ []) }
{
    Refusal::UnusedField.when(access::nonzero(0, q.a, q.b, q.c))?;
    Refusal::Selector.when(3 < q.s)
}

fn with_flag(card: Card, side: u8, i: usize, set: bool) -> Card
    requires { i < 4 }
    ensures { state_as result ≡ apply (flag_is (side_of side) i set) (state_as card) }
{
    card.with_arbitration(card.arbitration.with(side, i, set))
}

// "A claim sets the caller's flag exactly when the other side's flag of that pair is clear; otherwise nothing changes."
fn claim_flag(card: Card, side: u8, i: usize) -> Outcome
    requires { i < 4 }
    ensures { Effected (claimed (side_of side) i (pair_of (state_as card).arbitration i)) card result }
{
    if card.arbitration.other(side, i) {
        return card.done(0, 0);
    }
    with_flag(card, side, i, true).done(1, 0)
}

fn release_flag(card: Card, side: u8, i: usize) -> Outcome
    requires { i < 4 }
    ensures { Effected (done 0 0 (flag_is (side_of side) i false ∷ [])) card result }
{
    with_flag(card, side, i, false).done(0, 0)
}

// KINDS

// 7 claim
#[inline(always)]
pub fn claim(card: Card, q: Access) -> Outcome
    ensures { (m w : List ℕ) → Did model.claim card q m w result m w }
{
    if let Err(refusal) = check_pair(q) {
        return card.refused(refusal);
    }
    claim_flag(card, q.side, q.s as usize)
}

// 8 release
#[inline(always)]
pub fn release(card: Card, q: Access) -> Outcome
    ensures { (m w : List ℕ) → Did model.release card q m w result m w }
{
    if let Err(refusal) = check_pair(q) {
        return card.refused(refusal);
    }
    release_flag(card, q.side, q.s as usize)
}
