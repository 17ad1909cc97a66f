// Document 02, L14: a damaged trace rescued into a lent list of numbers, three an entry; and an entry read back from it.
#![tactic(auto)]

ghost use Rattle.std.specs.Prelude.{◌≡◌, List, [], ◌∷◌, ◌++◌, ℕ, ◌+◌, ◌*◌, ◌/◌, ◌<◌, ◌≤◌, length, IfOk};
ghost use Rattle.std.proofs.lemmas.List.Edits.{sets};
ghost use Rattle.model.specs.Rescue.{range, entry_numbers, entry_at, rescue};
ghost use Rattle.scan.specs.Bridge.{entry_as, place_as};
ghost use Rattle.rescue.specs.Bridge.{found_as, rescued_as, Holds, Stored, Stands, Half, Going};
ghost use Rattle.model.specs.Rescue as model;

use access::Refusal;
use scan::{Entry, Place};

// The cases of an entry. 0 is none, so that a list of zeros says nothing.
const KEPT: u64 = 1;

const DOUBTFUL: u64 = 2;

const SKIPPED: u64 = 3;

// ENTRIES

// Three numbers an entry: its case, its place, and its number or length.
fn numbers_of(e: Entry) -> [u64; 3]
    ensures { result ≡ entry_numbers (entry_as e) }
{
    match e {
        Entry::Kept(at, number) => [KEPT, at, number],
        Entry::Doubtful(at, number) => [DOUBTFUL, at, number],
        Entry::Skipped(at, size) => [SKIPPED, at, size],
    }
}

fn write_entry(list: &mut [u64], place: usize, e: Entry)
    requires { 3 * place + 3 ≤ length list.old }
    ensures { list.new ≡ sets list.old (3 * place) (entry_numbers (entry_as e)) }
{
    let first = 3 * place;
    list[first..first + 3].copy_from_slice(&numbers_of(e));
}

// What stands at a place of a list, if an entry does.
#[tactic(auto, unfolding(model::specs::Rescue::entry_at))]
pub fn read_entry(list: &[u64], place: usize) -> Option<Entry>
    ensures { found_as result ≡ entry_at list.now place }
{
    if place >= list.len() / 3 {
        return None;
    }
    let first = 3 * place;
    let at = list[first + 1];
    let value = list[first + 2];
    match list[first] {
        KEPT => Some(Entry::Kept(at, value)),
        DOUBTFUL => Some(Entry::Doubtful(at, value)),
        SKIPPED => Some(Entry::Skipped(at, value)),
        _ => None,
    }
}

// THE LIST

// Stores an entry behind so many others, and gives their number then. "60 no room in the lent list, given only if the next entry does not fit; entries
// already listed stand."
fn store(list: &mut [u64], count: usize, e: Entry) -> Result<usize, Refusal>
    requires { count ≤ length list.old / 3 }
    ensures by_index { (before : List ℕ) (es : List model.Entry) → Holds before es count list.old → Stored before (es ++ (entry_as e ∷ [])) result list.new }
    ensures count_in_bounds { IfOk result (λ n. n ≤ length list.old / 3) }
{
    Refusal::ListFull.when(count == list.len() / 3)?;
    write_entry(list, count, e);
    Ok(count + 1)
}

// The bytes that were skipped, if any were.
fn store_range(list: &mut [u64], count: usize, place: Place) -> Result<usize, Refusal>
    requires { count ≤ length list.old / 3 }
    ensures by_index { (before : List ℕ) (es : List model.Entry) → Holds before es count list.old → Stored before (es ++ range (place_as place)) result list.new }
    ensures count_in_bounds { IfOk result (λ n. n ≤ length list.old / 3) }
{
    if place.run == 0 {
        return Ok(count);
    }
    store(list, count, place.range())
}

// THE SCAN

// Where it stands: the place in the trace, the same with what the scan knows there, and the number of entries in the list.
#[derive(Clone, Copy, Default)]
struct Standing {
    at: usize,
    place: Place,
    count: usize,
}

// Goes on to the next record, and lists what was skipped before it, and the record; or to the end.
fn list_next(trace: &[u8], list: &mut [u64], s: Standing) -> Result<Standing, Refusal>
    requires stands { Stands trace.now s × (s.at < length trace.now) }
    requires count_in_bounds { s.count ≤ length list.old / 3 }
    ensures stands_2 { IfOk result (λ t. Stands trace.now t × (s.at < t.at)) }
    ensures by_index { (before : List ℕ) → Half trace.now before s list.old → Going trace.now before result list.new }
    ensures count_in_bounds_2 { IfOk result (λ t. t.count ≤ length list.old / 3) }
{
    let end = trace.len();
    let next = scan::next_record(trace, s.at, end);
    let place = s.place.skip(next - s.at);
    if next == end {
        return Ok(Standing {
            at: next,
            place,
            ..s
        });
    }
    let number = trace::record_number(&trace[next..]);
    let ranged = store_range(list, s.count, place)?;
    let count = store(list, ranged, place.kept(number))?;
    Ok(Standing {
        at: next + 20,
        place: place.keep(number),
        count,
    })
}

// Scans the whole trace, and lists its entries: gives their number, or that the next one has no room. "The list's other places stay."
pub fn rescue(trace: &[u8], list: &mut [u64]) -> Result<usize, Refusal>
    ensures { rescued_as result list.new ≡ rescue trace.now list.old }
{
    let mut s = Standing::default();
    // From record to record, as `rescue_chunk` goes on: what it lists here may have no room, which ends the scan.
    while s.at < trace.len() {
        s = list_next(trace, list, s)?;
    }
    store_range(list, s.count, s.place)
}
