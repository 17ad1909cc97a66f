// The card's record by value: when it is sound, the fresh one, one part of it replaced, its reset, and what an access gives.
#![tactic(auto)]

ghost use Rattle.std.specs.Prelude.{◌≡◌, List, ℕ, Ok, Err};
ghost use Rattle.model.specs.State.{sound, with_fifos, with_arbitration, with_mailboxes, with_interrupts, with_transfer, with_dma, fresh, fresh_card};
ghost use Rattle.model.specs.Accesses as model;
ghost use Rattle.settings.specs.Bridge.{settings_as};
ghost use Rattle.fifos.specs.Bridge.{fifos_as};
ghost use Rattle.arbitration.specs.Bridge.{arbitration_as};
ghost use Rattle.mailboxes.specs.Bridge.{mailboxes_as};
ghost use Rattle.interrupts.specs.Bridge.{interrupts_as};
ghost use Rattle.transfer.specs.Bridge.{transfer_as};
ghost use Rattle.dma.specs.Bridge.{dma_as};
ghost use Rattle.card.specs.Bridge.{state_as, new_card_as, Did};

use access::{Access, Answer, Done, Refusal};
use arbitration::Arbitration;
use dma::Dma;
use fifos::Fifos;
use interrupts::Interrupts;
use mailboxes::Mailboxes;
use settings::Settings;
use transfer::Transfer;

#[derive(Clone, Copy)]
pub struct Card {
    pub settings: Settings,
    pub fifos: Fifos,
    pub arbitration: Arbitration,
    pub mailboxes: Mailboxes,
    pub interrupts: Interrupts,
    pub transfer: Transfer,
    pub dma: Dma,
}

// What a caller who asks for a card with failing settings gets beside refusal 1.
#[derive(Clone, Copy)]
pub struct Unfit {
    pub card: Card,
}

// What an access gives: the record, and the answer.
#[derive(Clone, Copy)]
pub struct Outcome {
    pub card: Card,
    pub answer: Answer,
}

// SOUND RECORDS

// "A card record is sound if its settings pass, each FIFO .., no pair .., mailbox data is below 65,536, .."
pub fn sound(card: Card) -> bool
    ensures { result ≡ sound (state_as card) }
{
    card.settings.pass()
        & card.fifos.sound()
        & card.arbitration.sound()
        & card.mailboxes.sound()
        & card.interrupts.sound()
        & card.transfer.sound()
}

// THE FRESH CARD

impl Card {
    // The record alone: "A fresh card has empty FIFOs and all else 0, clear or idle."
    #[tactic(auto, unfolding(crate::specs::Bridge::state_as))]
    fn fresh(settings: Settings) -> Card
        ensures { state_as result ≡ fresh (settings_as settings) }
    {
        Card {
            settings,
            fifos: Fifos::fresh(),
            arbitration: Arbitration::fresh(),
            mailboxes: Mailboxes::fresh(),
            interrupts: Interrupts::fresh(),
            transfer: Transfer::fresh(),
            dma: Dma::fresh(),
        }
    }
}

// "Failing settings give refusal 1 and the fresh card of all-zero settings."
pub fn fresh(settings: Settings) -> Result<Card, Unfit>
    ensures { new_card_as result ≡ fresh_card (settings_as settings) }
{
    if settings.pass() {
        return Ok(Card::fresh(settings));
    }
    let card = Card::fresh(Settings::zero());
    Err(Unfit { card })
}

// ONE PART REPLACED

impl Card {
    #[tactic(auto, unfolding(crate::specs::Bridge::state_as))]
    pub fn with_fifos(self, fifos: Fifos) -> Card
        ensures { state_as result ≡ with_fifos (fifos_as fifos) (state_as self) }
    {
        Card { fifos, ..self }
    }

    #[tactic(auto, unfolding(crate::specs::Bridge::state_as))]
    pub fn with_arbitration(self, arbitration: Arbitration) -> Card
        ensures { state_as result ≡ with_arbitration (arbitration_as arbitration) (state_as self) }
    {
        Card {
            arbitration,
            ..self
        }
    }

    #[tactic(auto, unfolding(crate::specs::Bridge::state_as))]
    pub fn with_mailboxes(self, mailboxes: Mailboxes) -> Card
        ensures { state_as result ≡ with_mailboxes (mailboxes_as mailboxes) (state_as self) }
    {
        Card { mailboxes, ..self }
    }

    #[tactic(auto, unfolding(crate::specs::Bridge::state_as))]
    pub fn with_interrupts(self, interrupts: Interrupts) -> Card
        ensures { state_as result ≡ with_interrupts (interrupts_as interrupts) (state_as self) }
    {
        Card { interrupts, ..self }
    }

    #[tactic(auto, unfolding(crate::specs::Bridge::state_as))]
    pub fn with_transfer(self, transfer: Transfer) -> Card
        ensures { state_as result ≡ with_transfer (transfer_as transfer) (state_as self) }
    {
        Card { transfer, ..self }
    }

    #[tactic(auto, unfolding(crate::specs::Bridge::state_as))]
    pub fn with_dma(self, dma: Dma) -> Card
        ensures { state_as result ≡ with_dma (dma_as dma) (state_as self) }
    {
        Card { dma, ..self }
    }
}

// WHAT AN ACCESS GIVES

impl Card {
    // "Record and memories are unchanged." An outcome has the card on a refusal too, so that the kinds ask for their checks by `if let` and not by `?`.
    pub fn refused(self, refusal: Refusal) -> Outcome
        ensures { result ≡ record { card = self; answer = Err refusal } }
    {
        Outcome {
            card: self,
            answer: Err(refusal),
        }
    }

    // "0 is done."
    pub fn done(self, v: u32, x: u32) -> Outcome
        ensures { result ≡ record { card = self; answer = Ok (record { v = v; x = x }) } }
    {
        Outcome {
            card: self,
            answer: Ok(Done { v, x }),
        }
    }
}

// 0 reset: "registers as fresh; settings and memories stay"
pub fn reset(card: Card, q: Access) -> Outcome
    ensures { (m w : List ℕ) → Did model.reset card q m w result m w }
{
    if let Err(refusal) = access::no_field(q) {
        return card.refused(refusal);
    }
    Card::fresh(card.settings).done(0, 0)
}
