// Document 02, L14: the line of an entry and the last line of a rescue, each stored in a lent buffer from a place on; the place after it is given.
#![tactic(auto)]

ghost use Rattle.std.specs.Prelude.{◌≡◌, ◌++◌, ◌+◌, ◌≤◌, length};
ghost use Rattle.model.specs.Text.{field_text};
ghost use Rattle.model.specs.RescueText.{entry_text, tallied, total_text};
ghost use Rattle.decimal.specs.Bridge.{Written};
ghost use Rattle.scan.specs.Bridge.{entry_as};
ghost use Rattle.entry_text.specs.Bridge.{tally_as, Room};

use decimal::{write_field, write_word};
use scan::Entry;

// A word and two numbers: at most 20 digits each.
#[tactic(auto, using(model::proofs::TextLaws::digits_64))]
fn write_pair(out: &mut [u8], at: usize, word: &[u8], first: u64, second: u64) -> usize
    requires { at + length word.now + 42 ≤ length out.old }
    ensures written { Written out.old at (word.now ++ field_text first 32 ++ field_text second 10) result out.new }
    ensures upper_bound { result ≤ at + length word.now + 42 }
{
    let p1 = write_word(out, at, word);
    let p2 = write_field(out, p1, first, b' ');
    write_field(out, p2, second, b'\n')
}

// "`kept AT NUMBER`, `doubtful AT NUMBER`, `skipped AT LENGTH`."
#[tactic(auto, unfolding(model::specs::RescueText::entry_text))]
pub fn write_entry(out: &mut [u8], at: usize, e: Entry) -> usize
    requires { at + 51 ≤ length out.old }
    ensures written { Written out.old at (entry_text (entry_as e)) result out.new }
    ensures upper_bound { result ≤ at + 51 }
{
    match e {
        Entry::Kept(place, number) => write_pair(out, at, b"kept ", place, number),
        Entry::Doubtful(place, number) => write_pair(out, at, b"doubtful ", place, number),
        Entry::Skipped(place, size) => write_pair(out, at, b"skipped ", place, size),
    }
}

// "The kept records (doubtful ones included), how many of them are doubtful, the bytes skipped."
#[derive(Clone, Copy, Default)]
pub struct Tally {
    pub kept: u64,
    pub doubtful: u64,
    pub skipped: u64,
}

impl Tally {
    pub fn none() -> Tally
        ensures { result ≡ record { kept = 0; doubtful = 0; skipped = 0 } }
    {
        Tally::default()
    }

    // With one entry more.
    pub fn with(self, e: Entry) -> Tally
        requires { Room self (entry_as e) }
        ensures { tally_as result ≡ tallied (tally_as self) (entry_as e) }
    {
        match e {
            Entry::Kept(_, _) => Tally {
                kept: self.kept + 1,
                ..self
            },
            Entry::Doubtful(_, _) => Tally {
                kept: self.kept + 1,
                doubtful: self.doubtful + 1,
                ..self
            },
            Entry::Skipped(_, size) => Tally {
                skipped: self.skipped + size,
                ..self
            },
        }
    }
}

// "`end KEPT DOUBTFUL SKIPPED`": at most 20 digits each.
#[tactic(auto, using(model::proofs::TextLaws::digits_64))]
pub fn write_totals(out: &mut [u8], at: usize, t: Tally) -> usize
    requires { at + 67 ≤ length out.old }
    ensures written { Written out.old at (total_text (tally_as t)) result out.new }
    ensures upper_bound { result ≤ at + 67 }
{
    let p1 = write_word(out, at, b"end ");
    let p2 = write_field(out, p1, t.kept, b' ');
    let p3 = write_field(out, p2, t.doubtful, b' ');
    write_field(out, p3, t.skipped, b'\n')
}
