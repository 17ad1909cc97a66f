// Document 02, L14: a chunk of a damaged trace scanned, and what it gives written: a line an entry, or the kept records anew.
#![tactic(auto)]

ghost use Rattle.std.specs.Prelude.{◌≡◌, List, [], ◌∷◌, ℕ, ◌+◌, ◌-◌, ◌*◌, ◌<◌, ◌≤◌, ◌^◌, length};
ghost use Rattle.model.specs.Rescue.{range, kept_first};
ghost use Rattle.model.specs.RescueText.{tally};
ghost use Rattle.decimal.specs.Bridge.{Written};
ghost use Rattle.scan.specs.Bridge.{place_as};
ghost use Rattle.entry_text.specs.Bridge.{tally_as};
ghost use Rattle.rescue_chunk.specs.Bridge.{range_text, kept_text, last_text, Small, Wrote, Further, Half, ChunkRescued};

use entry_text::Tally;
use scan::Place;

// What is written of a trace: "a line an entry", or "the kept records anew as a trace numbered from 0". The caller of `rescue_chunk` says which at run time.
#[derive(Clone, Copy)]
pub enum Output {
    Entries,
    Records,
}

// ONE RECORD

#[tactic(auto, unfolding(model::specs::RescueText::tally))]
fn tally_range(t: Tally, place: Place) -> Tally
    requires small { Small place t }
    requires run_bound { place.from + place.run + 20 < 2 ^ 64 }
    ensures { tally_as result ≡ tally (tally_as t) (range (place_as place)) }
{
    if place.run == 0 {
        t
    } else {
        t.with(place.range())
    }
}

#[tactic(auto, using(crate::specs::Laws::no_range), unfolding(model::specs::RescueText::entry_lines))]
fn write_range(output: Output, place: Place, out: &mut [u8], end: usize) -> usize
    requires { end + 51 ≤ length out.old }
    ensures written { Written out.old end (range_text output (place_as place)) result out.new }
    ensures upper_bound { result ≤ end + 51 }
{
    if place.run == 0 {
        return end;
    }
    match output {
        Output::Entries => entry_text::write_entry(out, end, place.range()),
        Output::Records => end,
    }
}

// Where the rescue of a chunk stands: the bytes before `at` are passed, the output ends at `end`; the scan's place, and the entries that were listed.
#[derive(Clone, Copy, Default)]
pub struct Rescued {
    pub at: usize,
    pub end: usize,
    pub place: Place,
    pub tally: Tally,
}

// The record at the start of the bytes, which stands where the scan does.
fn write_kept(output: Output, bytes: &[u8], out: &mut [u8], s: Rescued) -> usize
    requires in_bounds { 20 ≤ length bytes.now }
    requires run_bound { s.place.from + s.place.run < 2 ^ 64 }
    requires end_in_bounds { s.end + 51 ≤ length out.old }
    ensures written { Written out.old s.end (kept_text output (place_as s.place) s.tally.kept bytes.now) result out.new }
    ensures upper_bound { result ≤ s.end + 51 }
{
    match output {
        Output::Entries => {
            let number = trace::record_number(bytes);
            entry_text::write_entry(out, s.end, s.place.kept(number))
        }
        Output::Records => {
            // There is room, so it answers the next number, which the count gives too.
            let _ = trace::write_record(
                convert::number_after(s.tally.kept),
                trace::access_of(bytes),
                &mut out[s.end..],
            );
            s.end + 20
        }
    }
}

// Writes the record at the start of the bytes, and before it what was skipped.
fn write_found(output: Output, bytes: &[u8], out: &mut [u8], s: Rescued) -> Rescued
    requires in_bounds { 20 ≤ length bytes.now }
    requires run_bound { (s.place.from + s.place.run + 20 < 2 ^ 64) × (s.at + 20 < 2 ^ 64) }
    requires small { Small s.place s.tally }
    requires end_in_bounds { s.end + 102 ≤ length out.old }
    ensures wrote { Wrote output (kept_first bytes.now ∷ []) s out.old result out.new }
    ensures further { Further s result }
{
    let ranged = Rescued {
        end: write_range(output, s.place, out, s.end),
        tally: tally_range(s.tally, s.place),
        ..s
    };
    let number = trace::record_number(bytes);
    Rescued {
        at: s.at + 20,
        end: write_kept(output, bytes, out, ranged),
        place: s.place.keep(number),
        tally: ranged.tally.with(s.place.kept(number)),
    }
}

// A CHUNK

// How many places of a chunk are looked at: those with at least `least` bytes from there on.
fn places(size: usize, least: usize) -> usize
    requires { 1 ≤ least }
    ensures value { result ≡ size + 1 - least }
    ensures upper_bound { result ≤ size }
{
    size.saturating_sub(least - 1)
}

// Goes on to the next record and writes it, or to the last place that is looked at.
fn write_next(output: Output, input: &[u8], to: usize, out: &mut [u8], s: Rescued) -> Rescued
    requires at_lt_to { (s.at < to) × (to ≤ length input.now) }
    requires at_bound { s.place.from + s.place.run + (length input.now - s.at) < 2 ^ 64 }
    requires small { Small s.place s.tally }
    requires end_in_bounds { s.end + 102 ≤ length out.old }
    ensures by_index { (least : ℕ) (first : Rescued) (before : List ℕ) → to + least ≤ length input.now + 1 → Half output least first input.now before s out.old → Half output least first input.now before result out.new }
    ensures further { Further s result × (result.at ≤ length input.now) }
{
    let next = scan::next_record(input, s.at, to);
    let skipped = Rescued {
        at: next,
        place: s.place.skip(next - s.at),
        ..s
    };
    if next == to {
        return skipped;
    }
    write_found(output, &input[next..], out, skipped)
}

// Scans a chunk while at least `least` bytes are left, and writes what it gives at the start of `out`.
pub fn rescue_chunk(
    output: Output,
    least: usize,
    place: Place,
    tally: Tally,
    input: &[u8],
    out: &mut [u8],
) -> Rescued
    requires le_least { 1 ≤ least }
    requires input_in_bounds { 6 * length input.now + 102 ≤ length out.old }
    requires input_bound { place.from + place.run + length input.now < 2 ^ 64 }
    requires small { Small place tally }
    ensures { ChunkRescued output least place tally input.now out.old result out.new }
{
    let to = places(input.len(), least);
    let mut s = Rescued {
        at: 0,
        end: 0,
        place,
        tally,
    };
    // From record to record.
    while s.at < to {
        s = write_next(output, input, to, out, s);
    }
    s
}

// What closes the output: the bytes that were skipped at the end, and "`end KEPT DOUBTFUL SKIPPED`". A trace has no last line.
pub fn last_lines(output: Output, place: Place, t: Tally, out: &mut [u8]) -> usize
    requires small { Small place t }
    requires run_bound { place.from + place.run + 20 < 2 ^ 64 }
    requires in_bounds { 118 ≤ length out.old }
    ensures written { Written out.old 0 (last_text output (place_as place) (tally_as t)) result out.new }
    ensures upper_bound { result ≤ 118 }
{
    match output {
        Output::Entries => {
            let p = write_range(output, place, out, 0);
            entry_text::write_totals(out, p, tally_range(t, place))
        }
        Output::Records => 0,
    }
}
