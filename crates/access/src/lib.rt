// The words of an access: what is asked, what is answered, the numbers of the refusals, and the checks that several kinds share.
#![tactic(auto)]

ghost use Rattle.std.specs.Prelude.{◌≡◌, [], ◌∷◌, ◌<◌, if◌then◌else◌};
ghost use Rattle.model.specs.Checks.{refusal, ◌for◌, misplaced, nonzero};
ghost use Rattle.model.specs.Sides.{side_of, other, not_by};
ghost use Rattle.access.specs.Bridge.{access_as, number_of, refused_when, refusal_as};

// "Kind, side and selector S are bytes; A, B, C, V and X are 32-bit numbers."
#[derive(Clone, Copy)]
pub struct Access {
    pub kind: u8,
    pub side: u8,
    pub s: u8,
    pub a: u32,
    pub b: u32,
    pub c: u32,
}

// The seventeen kinds by name, for the accesses that a register access and ARBUTIL ask for. What a caller asks for is a byte, which names one of them or none.
#[derive(Clone, Copy, PartialEq, Eq)]
pub enum Kind {
    Reset = 0,
    SharedRead = 1,
    SharedWrite = 2,
    WindowRead = 3,
    WindowWrite = 4,
    Take = 5,
    Put = 6,
    Claim = 7,
    Release = 8,
    MailboxWrite = 9,
    MailboxRead = 10,
    InterruptRead = 11,
    InterruptWrite = 12,
    Line = 13,
    Start = 14,
    Step = 15,
    ExternalPin = 16,
}

// "V and X", where the access is done.
#[derive(Clone, Copy)]
pub struct Done {
    pub v: u32,
    pub x: u32,
}

// Done, or refused.
pub type Answer = Result<Done, Refusal>;

// "Side 0 is the host, side 1 the local processor."
pub const HOST: u8 = 0;

pub const LOCAL: u8 = 1;

// "16,384 bytes of shared memory", and the number of PCI addresses.
pub const SHARED_LENGTH: u64 = 16384;

pub const PCI_LENGTH: u64 = 4294967296;

// "Numbers a caller sees": one name for each refusal.
#[derive(Clone, Copy, PartialEq, Eq)]
pub enum Refusal {
    Unfit = 1,
    Unknown = 2,
    UnusedField = 3,
    Selector = 4,
    WrongSide = 5,
    Busy = 6,
    EmptyTransfer = 7,
    Size = 8,
    Address = 9,
    NotRunning = 10,
    // L4: an offset that is no multiple of 4, or not modelled.
    Unmodelled = 11,
    // L10: a mode of 2 or above 3, or more than 65,536 phases; a phase past the last dword; a read list shorter than the phases.
    NoBurst = 12,
    Overrun = 13,
    ShortList = 14,
    // The trace reader's.
    ShortRecord = 20,
    WrongMark = 21,
    RecordNumber = 22,
    ZeroByte = 23,
    // The record writer's.
    NoRoom = 24,
    // The line reader's.
    NoLine = 25,
    // L7: a trace that the reader refuses, or of more than 81,920 bytes; a position above 9 or reserved there; a side above 1.
    RefusedTrace = 40,
    LongTrace = 41,
    Reserved = 42,
    NoSide = 43,
    // The rescue's.
    ListFull = 60,
}

impl Refusal {
    // The discriminant, which a conversion by `From` would say no better.
    pub fn number(self) -> u8
        ensures { result ≡ number_of self }
    {
        self as u8
    }

    // A numbered check, before later ones: refused where its cause holds.
    pub fn when(self, cause: bool) -> Result<(), Refusal>
        ensures { result ≡ refused_when self cause }
    {
        if cause { Err(self) } else { Ok(()) }
    }
}

// An access that does not use C. Its kind is a byte, as in every access.
pub fn asked(kind: u8, side: u8, s: u8, a: u32, b: u32) -> Access
    ensures { access_as result ≡ record { kind = kind; side = side; s = s; a = a; b = b; c = 0 } }
{
    Access {
        kind,
        side,
        s,
        a,
        b,
        c: 0,
    }
}

// The number of the side other than this one.
pub fn other_side(side: u8) -> u8
    ensures { (side_of result ≡ other (side_of side)) × (result < 2) }
{
    if side == HOST { LOCAL } else { HOST }
}

// Cause 5: the caller is another than the one side that may.
pub fn wrong_side(may: u8, side: u8) -> bool
    ensures { result ≡ not_by (side_of may) (side_of side) }
{
    if may == HOST {
        side != HOST
    } else {
        side == HOST
    }
}

// Cause 3: one of the fields that a kind does not use is not zero. A caller hands in 0 for each field that the kind uses.
pub fn nonzero(s: u8, a: u32, b: u32, c: u32) -> bool
    ensures { result ≡ nonzero (s ∷ a ∷ b ∷ c ∷ []) }
{
    (s != 0) | ((a != 0) | ((b != 0) | (c != 0)))
}

// Cause 9: `count` bytes from an address, in a memory whose addresses go from `lo` to below `hi`. The sum is one of 64 bits, and never wraps.
pub fn misplaced(at: u32, count: u32, lo: u64, hi: u64) -> bool
    ensures { result ≡ misplaced at count lo hi }
{
    let from = at as u64;
    let end = from + count as u64;
    (from % 4 != 0) | (from < lo) | (hi < end)
}

// Kinds 0, 10, 11 and 13 have cause 3 alone, of all four fields.
pub fn no_field(q: Access) -> Result<(), Refusal>
    ensures { refusal_as result ≡ refusal ((3 for nonzero (q.s ∷ q.a ∷ q.b ∷ q.c ∷ [])) ∷ []) }
{
    Refusal::UnusedField.when(nonzero(q.s, q.a, q.b, q.c))
}

// Kinds 9 and 12 use B.
pub fn value_only(q: Access) -> Result<(), Refusal>
    ensures { refusal_as result ≡ refusal ((3 for nonzero (q.s ∷ q.a ∷ q.c ∷ [])) ∷ []) }
{
    Refusal::UnusedField.when(nonzero(q.s, q.a, 0, q.c))
}
