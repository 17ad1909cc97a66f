// Document 01, "Mailboxes": mailbox write and read, kinds 9 and 10, each with its own check first.
#![tactic(auto)]

ghost use Rattle.std.specs.Prelude.{List, [], ℕ};
ghost use Rattle.model.specs.Sides.{side_of};
ghost use Rattle.model.specs.Mailboxes.{mail_for, label_for};
ghost use Rattle.model.specs.Changes.{done};
ghost use Rattle.model.specs.MailboxWrites.{mail_written};
ghost use Rattle.model.specs.Accesses as model;
ghost use Rattle.card.specs.Bridge.{state_as, Effected, Did};

use access::Access;
use card::{Card, Outcome};

// bit 24
const RING: u32 = 16777216;

// "A write stores bits 15 to 0; bit 24 set raises event 3 for the other side; other bits are ignored."
fn write_data(card: Card, side: u8, value: u32) -> Outcome
    ensures { Effected (mail_written (side_of side) value) card result }
{
    let stored = card.with_mailboxes(card.mailboxes.write(side, value % 65536));
    if value / RING % 2 == 1 {
        let raised = card
            .interrupts
            .raise(access::other_side(side), events::MAILBOX);
        return stored.with_interrupts(raised).done(0, 0);
    }
    stored.done(0, 0)
}

// "V data, X bay label."
fn read_data(card: Card, side: u8) -> Outcome
    ensures { Effected (done (mail_for (side_of side) (state_as card).mailboxes) (label_for (side_of side) (state_as card).mailboxes) []) card result }
{
    card.done(card.mailboxes.read(side), card.mailboxes.label(side))
}

// 9 mailbox write
pub fn write(card: Card, q: Access) -> Outcome
    ensures { (m w : List ℕ) → Did model.mailbox_write card q m w result m w }
{
    if let Err(refusal) = access::value_only(q) {
        return card.refused(refusal);
    }
    write_data(card, q.side, q.b)
}

// 10 mailbox read
pub fn read(card: Card, q: Access) -> Outcome
    ensures { (m w : List ℕ) → Did model.mailbox_read card q m w result m w }
{
    if let Err(refusal) = access::no_field(q) {
        return card.refused(refusal);
    }
    read_data(card, q.side)
}
