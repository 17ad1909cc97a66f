// Document 02, L1: a list of accesses turned from one form into the other: "a text list of accesses into a trace", and "back".
#![tactic(auto)]

ghost use Rattle.std.specs.Prelude.{◌≡◌, ◌+◌, ◌*◌, ◌<◌, ◌≤◌, ◌^◌, length, IfSome};
ghost use Rattle.model.specs.Trace.{number_after};
ghost use Rattle.model.specs.Convert.{text_form, trace_form};
ghost use Rattle.convert.specs.Bridge.{form_as, other_as, AccessTurned, ChunkTurned};

// The form that is read; the other is written.
#[derive(Clone, Copy)]
pub enum Form {
    Text,
    Trace,
}

impl Form {
    // How many bytes the reader looks at, at most.
    pub fn longest(self) -> usize
        ensures { result ≡ (form_as self).longest }
    {
        match self {
            Form::Text => 45,
            Form::Trace => 20,
        }
    }
}

// What becomes of the access at the start of the input: how many bytes it has there, none where it is refused; and where the output ends.
#[derive(Clone, Copy)]
struct Step {
    size: Option<usize>,
    end: usize,
}

// "Numbers start at 0; after 65,535 the record number starts again at 0."
pub fn number_after(count: u64) -> u16
    ensures { result ≡ number_after count }
{
    (count % 65536) as u16
}

// The line at the start of a text, as a record; or the line of its refusal.
fn line_to_record(text: &[u8], count: u64, out: &mut [u8], end: usize) -> Step
    requires end_in_bounds { end + 45 ≤ length out.old }
    requires count_bound { count + 1 < 2 ^ 64 }
    ensures { AccessTurned text_form trace_form count text.now out.old end result out.new }
{
    match access_text::read_line(text) {
        Ok(line) => {
            // There is room, so it answers the next number, which the count gives too.
            let _ = trace::write_record(number_after(count), line.access, &mut out[end..]);
            Step {
                size: Some(line.length),
                end: end + 20,
            }
        }
        Err(refusal) => Step {
            size: None,
            end: report::write_refused_line(out, end, refusal.number(), count + 1),
        },
    }
}

// The record at the start of a trace, as a line; or the line of its refusal.
fn record_to_line(trace: &[u8], count: u64, out: &mut [u8], end: usize) -> Step
    requires { end + 45 ≤ length out.old }
    ensures { AccessTurned trace_form text_form count trace.now out.old end result out.new }
{
    match trace::read_record(trace, number_after(count)) {
        Ok(q) => Step {
            size: Some(20),
            end: access_text::write_line(out, end, q),
        },
        Err(refusal) => Step {
            size: None,
            end: report::write_log(out, end, refusal.number(), count),
        },
    }
}

// Which form is read is known at run time only: `convert_chunk` is told it by its caller.
fn turn_one(from: Form, input: &[u8], count: u64, out: &mut [u8], end: usize) -> Step
    requires end_in_bounds { end + 45 ≤ length out.old }
    requires count_bound { count + 1 < 2 ^ 64 }
    ensures turned { AccessTurned (form_as from) (other_as from) count input.now out.old end result out.new }
    ensures far { IfSome result.size (λ size. (12 ≤ size) × (size ≤ length input.now) × (result.end ≤ end + 3 * size)) }
{
    match from {
        Form::Text => line_to_record(input, count, out, end),
        Form::Trace => record_to_line(input, count, out, end),
    }
}

// Where a chunk's conversion stands: the bytes from `at` on are left, none behind a refusal; where the output ends, the accesses turned in all, and
// whether a refusal has stopped it, beside which the others hold too.
#[derive(Clone, Copy, Default)]
pub struct Converted {
    pub at: usize,
    pub end: usize,
    pub count: u64,
    pub stopped: bool,
}

// Turns access after access while at least `least` bytes are left, up to the first that is refused, and writes them at the start of `out`.
pub fn convert_chunk(
    from: Form,
    least: usize,
    start: u64,
    input: &[u8],
    out: &mut [u8],
) -> Converted
    requires le_least { 1 ≤ least }
    requires input_in_bounds { 3 * length input.now + 45 ≤ length out.old }
    requires input_bound { start + length input.now < 2 ^ 64 }
    ensures chunk_turned { ChunkTurned (form_as from) (other_as from) least start input.now out.old result out.new }
    ensures count_bound { 12 * result.count ≤ 12 * start + length input.now }
{
    let mut turned = Converted {
        count: start,
        ..Converted::default()
    };
    // Each access has its own length.
    while input.len() - turned.at >= least {
        let step = turn_one(from, &input[turned.at..], turned.count, out, turned.end);
        turned.end = step.end;
        let Some(size) = step.size else {
            return Converted {
                at: input.len(),
                stopped: true,
                ..turned
            };
        };
        turned.at += size;
        turned.count += 1;
    }
    turned
}
