// Runs `pins::decode` on the cases of standard input: 6 bytes each, mode, pins and data, as the independent program wrote them.
#![tactic(auto)]

use pins::Decoded;

// Reads a case and writes its number, lanes and dword; false where the input ends.
fn run_case() -> bool {
    let Some(case) = testing::read_case::<6>() else {
        return false;
    };
    let data = testing::number_at(&case[2..], 0);
    let (number, decoded) = match pins::decode(case[0], case[1], data) {
        Ok(decoded) => (0, decoded),
        Err(refusal) => (refusal.number(), Decoded::refused()),
    };
    testing::show_line(&[
        u64::from(number),
        u64::from(decoded.lanes),
        u64::from(decoded.dword),
    ]);
    true
}

fn main() {
    testing::each_case(run_case);
}
