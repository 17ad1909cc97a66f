// Turns each input of standard input by itself, read in portions. The inputs stand one behind the other, each behind three numbers of four bytes, least
// byte first, as the independent program wrote them: 0 for a text and 1 for a trace, how many bytes are read at a time, and how many it has. Behind each
// output stands a line: how many accesses were turned, and 1 where it was refused.
#![tactic(auto)]

ghost use Rattle.std.specs.Prelude.{◌≤◌};
ghost use Rattle.convert_test.specs.declared.TheConstants.{INPUT};

use convert::Form;
use testing::show_line;

const INPUT: usize = 65520;

const OUTPUT: usize = 196605;

// Where an input's conversion stands: the bytes from `at` to `size` of the buffer are left.
#[derive(Clone, Copy)]
struct Place {
    at: usize,
    size: usize,
    count: u64,
    stopped: bool,
    ghost in_order: { at ≤ size },
    ghost in_buffer: { size ≤ INPUT },
}

fn form_of(number: u32) -> Form {
    if number == 0 { Form::Text } else { Form::Trace }
}

// Keeps what the last portion cut off, reads a portion behind it and turns it. What follows a refusal is read and not turned.
fn turn_portion(
    from: Form,
    last: Place,
    bytes: u32,
    ended: bool,
    input: &mut [u8; INPUT],
    out: &mut [u8; OUTPUT],
) -> Place {
    let kept = stream::keep(input, last.at, last.size);
    let end = kept + bytes as usize;
    if end > INPUT || last.count > u64::from(u32::MAX) {
        return last;
    }
    let size = kept + io::read_full(0, &mut input[kept..end]);
    if last.stopped {
        return last;
    }
    let least = if ended { 1 } else { from.longest() };
    let converted = convert::convert_chunk(from, least, last.count, &input[..size], out);
    io::write_all(1, &out[..converted.end]);
    Place {
        at: converted.at,
        size,
        count: converted.count,
        stopped: converted.stopped,
    }
}

fn turn_input(
    from: Form,
    portion: u32,
    bytes: u32,
    input: &mut [u8; INPUT],
    out: &mut [u8; OUTPUT],
) {
    let mut place = Place {
        at: 0,
        size: 0,
        count: 0,
        stopped: false,
    };
    testing::each_portion(portion, bytes, |size, ended| {
        place = turn_portion(from, place, size, ended, input, out);
    });
    show_line(&[place.count, u64::from(place.stopped)]);
}

// Turns an input; false where there is none any more.
fn next_input(input: &mut [u8; INPUT], out: &mut [u8; OUTPUT]) -> bool {
    let Some(head) = testing::read_case::<12>() else {
        return false;
    };
    let [form, portion, bytes] = testing::numbers::<3>(&head);
    turn_input(form_of(form), portion, bytes, input, out);
    true
}

fn main() {
    let mut input = [0; INPUT];
    let mut out = [0; OUTPUT];
    testing::each_case(|| next_input(&mut input, &mut out));
}
