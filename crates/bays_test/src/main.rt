// Runs `bays::label` and `bays::index` on every byte, as an index and as a label; what it must write comes from the independent program.
#![tactic(auto)]

use bays::{BayIndex, BayLabel};
use testing::show_line;

// Writes the number; the label of the bay that has it as index, 0 for none; how many bays have it as label; the index of that bay, 0 for none.
fn run_case(number: u8) {
    let label = u8::from(bays::label(BayIndex::from(number)));
    let index = bays::index(BayLabel::from(number)).map(u8::from);
    show_line(&[
        u64::from(number),
        u64::from(label),
        u64::from(index.is_some()),
        u64::from(index.unwrap_or(0)),
    ]);
}

fn main() {
    for number in 0..=u8::MAX {
        run_case(number);
    }
}
