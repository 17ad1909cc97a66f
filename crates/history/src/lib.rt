// Document 02, L7: what is known of an event position along a trace, record by record, and the answer that it gives.
#![tactic(auto)]

ghost use Rattle.std.specs.Prelude.{◌≡◌, map, Ok, ◌≤◌};
ghost use Rattle.model.specs.Why.{Reason, never, because, places, told, held_by};
ghost use Rattle.fifos.specs.Bridge.{entries_as};
ghost use Rattle.history.specs.Bridge.{told_as, is_set, turned_case, puts_after, Knows, Next};

use fifos::Fifo;

// The case by its name, never by a number that could be 0: never raised; cleared or set, with the record; entries held, with their count.
#[derive(Clone, Copy)]
pub enum Case {
    Never,
    Cleared(u32),
    Set(u32),
    Held(u32),
}

// The answer: the case, and beside it the entries held, oldest first, with the records that put them; 0 where unused. They stay two arrays: `told_as`,
// which the promise of `why::why` cites, speaks of each by itself, with the zeros that are unused.
#[derive(Clone, Copy)]
pub struct Explanation {
    pub case: Case,
    pub entries: [u32; 32],
    pub records: [u32; 32],
}

// What is known of a position: whether its bit is set, and by which record it came to be so or not; and the records that put the entries held.
#[derive(Clone, Copy)]
pub struct History {
    case: Case,
    puts: Fifo,
}

fn is_set(case: Case) -> bool
    ensures { result ≡ is_set case }
{
    matches!(case, Case::Set(_))
}

// A bit by its edges: "the earliest record that raised it", and "a write or reset counts as a clear only if the bit was set".
fn turned(case: Case, n: u32, up: bool) -> Case
    ensures { result ≡ turned_case case n up }
{
    match (is_set(case), up) {
        (true, false) => Case::Cleared(n),
        (false, true) => Case::Set(n),
        (true, true) | (false, false) => case,
    }
}

// The records that put the entries held, by how many are held then: a record puts one behind the others, takes the oldest, or empties the FIFO.
fn moved(puts: Fifo, n: u32, held: u32) -> Fifo
    requires { held ≤ 32 }
    ensures { entries_as result ≡ puts_after n held (entries_as puts) }
{
    if puts.count < held {
        return puts.with(n);
    }
    if held == 0 {
        return Fifo::empty();
    }
    if held < puts.count {
        return puts.rest();
    }
    puts
}

impl History {
    // Nothing has happened yet.
    pub fn start() -> History
        ensures { Knows result never }
    {
        History {
            case: Case::Never,
            puts: Fifo::empty(),
        }
    }

    // Record `n` is done: its bit is set then or not, and its FIFO holds so many entries, 0 where it follows none.
    pub fn after(self, n: u16, up: bool, held: u32) -> History
        requires { held ≤ 32 }
        ensures { (r r' : Reason) → Knows self r → Next n up held r r' → Knows result r' }
    {
        let record = n as u32;
        History {
            case: turned(self.case, record, up),
            puts: moved(self.puts, record, held),
        }
    }

    // The answer, where its FIFO holds these entries.
    pub fn told(self, entries: [u32; 32]) -> Explanation
        requires { self.puts.count ≤ 32 }
        ensures { (r : Reason) → Knows self r → entries ≡ places (map (λ h. h.entry) (held_by r)) → told_as (Ok result) ≡ told (because r) }
    {
        let records = self.puts.places();
        let held = self.puts.count;
        let case = if held == 0 {
            self.case
        } else {
            Case::Held(held)
        };
        Explanation {
            case,
            entries,
            records,
        }
    }
}
