// Rescues each trace of standard input by itself, into a lent list or in portions. The traces stand one behind the other, each behind three numbers of
// four bytes, least byte first, as the independent program wrote them: 0 for a lent list, 1 for a line an entry and 2 for the kept records anew; how many
// numbers the list has, or how many bytes are read at a time; and how many bytes the trace has.
#![tactic(auto)]

ghost use Rattle.std.specs.Prelude.{◌≡◌, true, ◌+◌, ◌<◌, ◌≤◌, ◌^◌, length};
ghost use Rattle.rescue_chunk.specs.Bridge.{Small};
ghost use Rattle.rescue_test.specs.declared.TheConstants.{INPUT};

use entry_text::Tally;
use rescue_chunk::{Output, Rescued};
use scan::Place;
use testing::{show, show_line};

const INPUT: usize = 65520;

const OUTPUT: usize = 393222;

// INTO A LENT LIST

const LIST: usize = 3000;

// What the list holds before.
fn fill(list: &mut [u64]) {
    for (i, number) in list.iter_mut().enumerate() {
        *number = 1000000000000 + i as u64 % 65536;
    }
}

fn show_list(list: &[u64]) {
    for number in list {
        show(*number, b' ');
    }
    io::write_all(1, b"\n");
}

fn into_list(numbers: u32, trace: &[u8]) {
    let mut all = [0; LIST];
    let list = &mut all[..(numbers as usize).min(LIST)];
    fill(list);
    match rescue::rescue(trace, list) {
        Ok(count) => show_line(&[0, count as u64]),
        Err(refusal) => show_line(&[u64::from(refusal.number()), 0]),
    }
    show_list(list);
}

// IN PORTIONS

// Where a trace's rescue stands: the bytes from `at` to `size` of the buffer are left.
#[derive(Clone, Copy)]
struct Portion {
    size: usize,
    rescued: Rescued,
    ghost in_order: { rescued.at ≤ size },
    ghost in_buffer: { size ≤ INPUT },
    ghost small: { Small rescued.place rescued.tally },
}

// No trace of a case is longer.
fn is_near(place: Place) -> bool
    ensures { result ≡ true → place.from + place.run + 65520 < 2 ^ 64 }
{
    (place.from < 4294967296) & (place.run < 4294967296)
}

// Scans the bytes at hand, and writes what they give. One byte must be at hand where the trace has ended, and else a record.
fn scan_portion(
    output: Output,
    before: Rescued,
    ended: bool,
    bytes: &[u8],
    out: &mut [u8; OUTPUT],
) -> Rescued
    requires bytes_len_bound { length bytes.now ≤ INPUT }
    requires small { Small before.place before.tally }
    ensures { (result.at ≤ length bytes.now) × Small result.place result.tally }
{
    let Rescued { place, tally, .. } = before;
    if !is_near(place) {
        return Rescued {
            at: 0,
            end: 0,
            ..before
        };
    }
    let least = if ended { 1 } else { 20 };
    let rescued = rescue_chunk::rescue_chunk(output, least, place, tally, bytes, out);
    io::write_all(1, &out[..rescued.end]);
    rescued
}

// Keeps what the last portion left, reads a portion behind it and scans both.
fn rescue_portion(
    output: Output,
    last: Portion,
    bytes: u32,
    ended: bool,
    input: &mut [u8; INPUT],
    out: &mut [u8; OUTPUT],
) -> Portion {
    let kept = stream::keep(input, last.rescued.at, last.size);
    let end = kept + bytes as usize;
    if end > INPUT {
        return last;
    }
    let size = kept + io::read_full(0, &mut input[kept..end]);
    Portion {
        size,
        rescued: scan_portion(output, last.rescued, ended, &input[..size], out),
    }
}

fn close(output: Output, last: Rescued, out: &mut [u8; OUTPUT])
    requires { Small last.place last.tally }
{
    if is_near(last.place) {
        let end = rescue_chunk::last_lines(output, last.place, last.tally, out);
        io::write_all(1, &out[..end]);
    }
}

// Gives the number of records kept.
fn in_portions(
    output: Output,
    portion: u32,
    bytes: u32,
    input: &mut [u8; INPUT],
    out: &mut [u8; OUTPUT],
) -> u64 {
    let mut last = Portion {
        size: 0,
        rescued: Rescued::default(),
    };
    testing::each_portion(portion, bytes, |size, ended| {
        last = rescue_portion(output, last, size, ended, input, out);
    });
    close(output, last.rescued, out);
    last.rescued.tally.kept
}

// ALL CASES

// Rescues a trace; false where there is none any more.
fn next_trace(input: &mut [u8; INPUT], out: &mut [u8; OUTPUT]) -> bool {
    let Some(head) = testing::read_case::<12>() else {
        return false;
    };
    let [how, argument, bytes] = testing::numbers::<3>(&head);
    match how {
        0 => into_list(argument, testing::read_most(&mut input[..65000], bytes)),
        1 => {
            in_portions(Output::Entries, argument, bytes, input, out);
        }
        _ => {
            let kept = in_portions(Output::Records, argument, bytes, input, out);
            if how == 2 {
                io::write_all(1, b"records ");
                show(kept, b'\n');
            }
        }
    }
    true
}

fn main() {
    let mut input = [0; INPUT];
    let mut out = zeroed::bytes();
    testing::each_case(|| next_trace(&mut input, &mut out));
}
