// Standard input and output, a chunk at a time. No contract can say what is read or written; a call that fails is told from the end of the input.
#![tactic(auto)]

ghost use Rattle.std.specs.Prelude.{◌≡◌, true, ◌≤◌, length, take, if◌then◌else◌, is_none};
ghost use Rattle.decimal.specs.Bridge.{Written};
ghost use Rattle.stream.specs.Bridge.{Keeps, Reads, at_hand, least_of, goes_on, broke_off, first_turn, fault_text};

use std::io::{Read, Stdin};

// A full chunk: 3,276 records of 20 bytes.
const CHUNK: usize = 65520;

// What reading a chunk gave: so many bytes at the start of the buffer, those that were kept among them, and whether a read failed before the input
// ended or the buffer was full: the bytes were read all the same.
#[derive(Clone, Copy, Default)]
pub struct Chunk {
    pub size: usize,
    pub cut: bool,
}

impl Chunk {
    // Where a read gave no more bytes: it failed, or the input has ended.
    fn ended(size: usize, got: Option<usize>) -> Chunk
        ensures { result ≡ record { size = size; cut = is_none got } }
    {
        Chunk {
            size,
            cut: got.is_none(),
        }
    }

    // How many of its bytes are answered: where a read failed, those of whole records.
    pub fn at_hand(self) -> usize
        ensures value { result ≡ at_hand self }
        ensures upper_bound { result ≤ self.size }
    {
        if self.cut {
            self.size - self.size % 20
        } else {
            self.size
        }
    }

    // How many bytes must be at hand for an access to be read, where its reader looks at no more than `longest`: one where the input has ended.
    pub fn least(self, longest: usize) -> usize
        ensures { result ≡ least_of self longest }
    {
        if (self.size == CHUNK) | self.cut {
            longest
        } else {
            1
        }
    }

    // Whether more is to be read. `stopped`: an access was refused; `lost`: a write failed.
    pub fn goes_on(self, stopped: bool, lost: bool) -> bool
        ensures { result ≡ goes_on self stopped lost }
    {
        (self.size == CHUNK) & !stopped & !self.cut & !lost
    }

    // Whether the last chunk is where the program broke off. `more`: more was to be read, but no more may be.
    pub fn broke_off(self, lost: bool, more: bool) -> bool
        ensures { result ≡ broke_off self lost more }
    {
        lost | more | self.cut
    }
}

// The records to be told of where something failed: where it was a write, the lines of its chunk may be missing.
pub fn records_told(lost: bool, before: u64, after: u64) -> u64
    ensures { result ≡ (if lost then before else after) }
{
    if lost { before } else { after }
}

// Moves the bytes of a chunk from a place on to the start of the buffer, and gives how many they are: what is cut off at the end of a chunk is kept
// for the next.
pub fn keep(buffer: &mut [u8], at: usize, size: usize) -> usize
    requires { (at ≤ size) × (size ≤ length buffer.old) }
    ensures { Keeps buffer.old at size result buffer.new }
{
    buffer.copy_within(at..size, 0);
    size - at
}

// Reads behind the bytes that are kept until the buffer is full, the input ends or a read fails. A read that a signal interrupts has failed.
pub fn read_chunk(mut stdin: Stdin, buffer: &mut [u8], kept: usize) -> Chunk
    requires { kept ≤ length buffer.old }
    ensures { Reads buffer.old kept result buffer.new }
{
    let mut size = kept;
    // A read gives as many bytes as it likes.
    while size < buffer.len() {
        let got = stdin.read(&mut buffer[size..]).ok();
        let Some(more @ 1..) = got else {
            return Chunk::ended(size, got);
        };
        size += more;
    }
    Chunk { size, cut: false }
}

// The part of a buffer that is to be written: its text, up to where that ends.
pub fn text(buffer: &[u8], end: usize) -> &[u8]
    requires { end ≤ length buffer.now }
    ensures { (result.ref_ptr ≡ buffer.entry.ref_ptr) × (result.now ≡ take end buffer.now) }
{
    &buffer[0..end]
}

// How a chunk went: what was read of it, where the work stands then, whether its text was lost in a write that failed, the records to be told of where
// something failed, and whether more is to be read. Its fields are private: a turn comes from before the first chunk, or from a chunk behind a turn
// that goes on. Each of the three flags may stand with any of the others.
#[derive(Clone, Copy)]
pub struct Turn<W> {
    chunk: Chunk,
    work: W,
    lost: bool,
    told: u64,
    more: bool,
}

impl<W: Copy> Turn<W> {
    // Before the first chunk.
    pub fn first(work: W) -> Turn<W>
        ensures { result ≡ first_turn work }
    {
        Turn {
            chunk: Chunk::default(),
            work,
            lost: false,
            told: 0,
            more: true,
        }
    }

    // Behind a chunk. `stopped`: something of it was refused. None is read behind a turn that does not go on.
    pub fn next(self, chunk: Chunk, work: W, stopped: bool, lost: bool, told: u64) -> Turn<W>
        requires { self.more ≡ true }
        ensures { result ≡ record { chunk = chunk; work = work; lost = lost; told = told; more = goes_on chunk stopped lost } }
    {
        Turn {
            chunk,
            work,
            lost,
            told,
            more: chunk.goes_on(stopped, lost),
        }
    }

    pub fn work(self) -> W
        ensures { result ≡ self.work }
    {
        self.work
    }

    // How many bytes stand at the start of the input buffer.
    pub fn size(self) -> usize
        ensures { result ≡ self.chunk.size }
    {
        self.chunk.size
    }

    pub fn goes_on(self) -> bool
        ensures { result ≡ self.more }
    {
        self.more
    }

    // Whether the program broke off here.
    pub fn broke_off(self) -> bool
        ensures { result ≡ broke_off self.chunk self.lost self.more }
    {
        self.chunk.broke_off(self.lost, self.more)
    }

    // The line for standard error; none where nothing failed. `unclosed`: what closes the output could not be written.
    pub fn fault_line(self, unclosed: bool, out: &mut [u8]) -> usize
        requires { 50 ≤ length out.old }
        ensures written { Written out.old 0 (fault_text self unclosed) result out.new }
        ensures upper_bound { result ≤ 50 }
    {
        let lost = self.lost | unclosed;
        if self.chunk.broke_off(lost, self.more) {
            return report::write_failed(out, 0, !lost, self.told);
        }
        0
    }
}
