// Document 02, L5: the bays of the backplane, by their index and by the label on them.
#![tactic(auto)]

ghost use Rattle.std.specs.Prelude.{◌≡◌};
ghost use Rattle.model.specs.Bays.{bay_index};
ghost use Rattle.bays.specs.Bridge.{label_at, found_as};

// A number taken as a bay index: "0 to 23".
#[derive(Clone, Copy)]
pub struct BayIndex(u8);

impl From<u8> for BayIndex {
    ghost from_gives = { λ byte bay. bay.0 ≡ byte };

    fn from(byte: u8) -> BayIndex {
        BayIndex(byte)
    }
}

impl From<BayIndex> for u8 {
    ghost from_gives = { λ bay byte. byte ≡ bay.0 };

    fn from(index: BayIndex) -> u8 {
        index.0
    }
}

// A number taken as the label on a bay: 1 to 24, and 0 where there is none.
#[derive(Clone, Copy)]
pub struct BayLabel(u8);

impl From<u8> for BayLabel {
    ghost from_gives = { λ byte bay. bay.0 ≡ byte };

    fn from(byte: u8) -> BayLabel {
        BayLabel(byte)
    }
}

impl From<BayLabel> for u8 {
    ghost from_gives = { λ bay byte. byte ≡ bay.0 };

    fn from(label: BayLabel) -> u8 {
        label.0
    }
}

// "four rows and six columns"
const ROWS: u8 = 4;

const COLUMNS: u8 = 6;

// "index = 4 x column + row, both from 0", "label = 6 x row + column + 1". An index that no bay has gets label 0, as the promise
// says: a label is never 0 elsewhere, where an index may be.
pub fn label(index: BayIndex) -> BayLabel
    ensures { result.0 ≡ label_at index.0 }
{
    match index.0 {
        0..=23 => {
            let row = index.0 % ROWS;
            let column = index.0 / ROWS;
            BayLabel(COLUMNS * row + column + 1)
        }
        _ => BayLabel(0),
    }
}

// The way back: "a label outside 1 to 24 gives none". Index 0 is a bay, so none is a case of its own.
pub fn index(label: BayLabel) -> Option<BayIndex>
    ensures { found_as result ≡ bay_index label.0 }
{
    match label.0 {
        1..=24 => {
            let row = (label.0 - 1) / COLUMNS;
            let column = (label.0 - 1) % COLUMNS;
            Some(BayIndex(ROWS * column + row))
        }
        _ => None,
    }
}
