// Document 01, "Mailboxes": both mailboxes by value.
#![tactic(auto)]

ghost use Rattle.std.specs.Prelude.{◌≡◌};
ghost use Rattle.model.specs.Sides.{side_of};
ghost use Rattle.model.specs.Mailboxes.{fresh_mailboxes, mailboxes_sound, with_mail, mail_for, label_for};
ghost use Rattle.mailboxes.specs.Bridge.{mailboxes_as};

use bays::BayIndex;

// "HLDATA (0x04E8) goes from host to local, LHDATA (0x04F8) back." `lhwritten`: LHDATA was written since reset. It
// stands beside the data, as in the definition: data of either kind may have been written or not.
#[derive(Clone, Copy, Default)]
pub struct Mailboxes {
    pub hldata: u32,
    pub lhdata: u32,
    pub lhwritten: bool,
}

impl Mailboxes {
    pub fn fresh() -> Mailboxes
        ensures { mailboxes_as result ≡ fresh_mailboxes }
    {
        Mailboxes::default()
    }

    // "Mailbox data is below 65,536."
    pub fn sound(self) -> bool
        ensures { result ≡ mailboxes_sound (mailboxes_as self) }
    {
        (self.hldata < 65536) & (self.lhdata < 65536)
    }

    // The host writes HLDATA, the local side LHDATA, which is then written.
    pub fn write(self, side: u8, word: u32) -> Mailboxes
        ensures { mailboxes_as result ≡ with_mail (side_of side) word (mailboxes_as self) }
    {
        if side == access::HOST {
            Mailboxes {
                hldata: word,
                ..self
            }
        } else {
            Mailboxes {
                lhdata: word,
                lhwritten: true,
                ..self
            }
        }
    }

    // "A read gives the mailbox addressed to the caller."
    pub fn read(self, side: u8) -> u32
        ensures { result ≡ mail_for (side_of side) (mailboxes_as self) }
    {
        if side == access::HOST {
            self.lhdata
        } else {
            self.hldata
        }
    }

    // "X is that label on a host read if the mailbox was written since reset .. A local read has X 0."
    pub fn label(self, side: u8) -> u32
        ensures { result ≡ label_for (side_of side) (mailboxes_as self) }
    {
        if side == access::HOST && self.lhwritten {
            let index = BayIndex::from((self.lhdata % 256) as u8);
            u8::from(bays::label(index)) as u32
        } else {
            0
        }
    }
}
