// Document 02, L14: the scan of a damaged trace: where the next record stands, where the scan stands, and the entries that it lists.
#![tactic(auto)]

ghost use Rattle.std.specs.Prelude.{◌≡◌, ℕ, ◌+◌, ◌<◌, ◌≤◌, ◌^◌, length};
ghost use Rattle.model.specs.Trace.{next_number};
ghost use Rattle.model.specs.Rescue.{kept_at, skipped};
ghost use Rattle.scan.specs.Bridge.{entry_as, place_as, Whole, FirstOf, Ahead};

// "Kept records and skipped ranges", each with its place; a kept record with its number, a range with its length.
#[derive(Clone, Copy)]
pub enum Entry {
    Kept(u64, u64),
    Doubtful(u64, u64),
    Skipped(u64, u64),
}

// How many places before `to` have the 20 bytes of a record from there on.
fn whole_places(size: usize, to: usize) -> usize
    ensures { Whole size to result }
{
    size.saturating_sub(19).min(to)
}

// The first of so many places where a record stands. Two places a turn: on a million bytes of marks one a turn took 6.59 million instructions, this takes
// 5.09, and plain Rust 6.4.
fn first_record(bytes: &[u8], places: usize) -> Option<usize>
    requires { (place : ℕ) → place < places → place + 20 ≤ length bytes.now }
    ensures { FirstOf bytes.now places result }
{
    for pair in 0..places / 2 {
        let place = 2 * pair;
        if trace::stands(bytes, place) {
            return Some(place);
        }
        if trace::stands(bytes, place + 1) {
            return Some(place + 1);
        }
    }
    if places % 2 == 1 && trace::stands(bytes, places - 1) {
        Some(places - 1)
    } else {
        None
    }
}

// The first place from `at` on, and before `to`, where a record stands; `to` where there is none, a place too, which the promise names.
pub fn next_record(bytes: &[u8], at: usize, to: usize) -> usize
    requires { (at ≤ to) × (to ≤ length bytes.now) }
    ensures { Ahead bytes.now at to result }
{
    let whole = whole_places(bytes.len() - at, to - at);
    match first_record(&bytes[at..], whole) {
        Some(place) => at + place,
        None => to,
    }
}

// Where a scan stands: `run` bytes behind `from`, where the last kept record ended; and the number that is expected next.
#[derive(Clone, Copy, Default)]
pub struct Place {
    pub from: u64,
    pub run: u64,
    pub expected: u16,
}

impl Place {
    pub fn start() -> Place
        ensures { result ≡ record { from = 0; run = 0; expected = 0 } }
    {
        Place::default()
    }

    // Behind bytes that are skipped.
    pub fn skip(self, bytes: usize) -> Place
        requires { self.run + bytes < 2 ^ 64 }
        ensures { result ≡ record { from = self.from; run = self.run + bytes; expected = self.expected } }
    {
        Place {
            run: self.run + bytes as u64,
            ..self
        }
    }

    // Behind a record that is kept.
    pub fn keep(self, number: u16) -> Place
        requires { self.from + self.run + 20 < 2 ^ 64 }
        ensures { result ≡ record { from = self.from + self.run + 20; run = 0; expected = next_number number } }
    {
        Place {
            from: self.from + self.run + 20,
            run: 0,
            expected: trace::next_number(number),
        }
    }

    // The bytes skipped since the last kept record.
    pub fn range(self) -> Entry
        ensures { entry_as result ≡ skipped self.from self.run }
    {
        Entry::Skipped(self.from, self.run)
    }

    // The record that stands here.
    pub fn kept(self, number: u16) -> Entry
        requires { self.from + self.run < 2 ^ 64 }
        ensures { entry_as result ≡ kept_at (place_as self) number }
    {
        let at = self.from + self.run;
        if number == self.expected {
            Entry::Kept(at, number as u64)
        } else {
            Entry::Doubtful(at, number as u64)
        }
    }
}
