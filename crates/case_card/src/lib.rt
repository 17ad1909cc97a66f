// The cases of the test programs of a card: read from numbers of four bytes, least byte first, answered in turn, and a record and an answer written out
// as lines of decimal numbers.
// What stands where is said in oracle/src/programs/device/mod.rs.
#![tactic(auto)]

use access::{Access, Answer, Refusal};
use arbitration::{Arbitration, Pair};
use card::Card;
use dma::Dma;
use events::{EventSet, Register};
use fifos::{Fifo, Fifos};
use interrupts::Interrupts;
use mailboxes::Mailboxes;
use settings::Settings;
use testing::{numbers, read_padded, show, show_line};
use transfer::{Request, Transfer};

// READ

// What a case asks for: calls to a record that it gives, or to a fresh card, or sources.
#[derive(Clone, Copy, PartialEq, Eq)]
pub enum Asked {
    Record,
    Fresh,
    Sources,
}

impl From<u32> for Asked {
    fn from(number: u32) -> Asked {
        match number {
            0 => Asked::Record,
            2 => Asked::Sources,
            _ => Asked::Fresh,
        }
    }
}

// What a case begins with.
#[derive(Clone, Copy)]
pub struct Head {
    pub asked: Asked,
    pub settings: Settings,
    pub shared: u32,
    pub window: u32,
    pub seed: u32,
    pub count: u32,
}

// None where the input has ended.
fn read_head() -> Option<Head> {
    let bytes = testing::read_case::<36>()?;
    let [what, base, length, lo, hi, shared, window, seed, count] = numbers::<9>(&bytes);
    Some(Head {
        asked: Asked::from(what),
        settings: Settings {
            base,
            length,
            lo,
            hi,
        },
        shared,
        window,
        seed,
        count,
    })
}

fn read_fifo() -> Fifo {
    let [count] = numbers::<1>(&read_padded::<4>());
    let entries = numbers(&read_padded::<128>());
    Fifo { entries, count }
}

fn pair_of(bits: u32) -> Pair {
    Pair {
        host: bits % 2 == 1,
        local: bits / 2 % 2 == 1,
    }
}

fn register_of(enables: u32, status: u32) -> Register {
    Register {
        enables: EventSet(enables),
        status: EventSet(status),
    }
}

fn read_mailboxes() -> Mailboxes {
    let [hldata, lhdata, lhwritten] = numbers::<3>(&read_padded::<12>());
    Mailboxes {
        hldata,
        lhdata,
        lhwritten: lhwritten == 1,
    }
}

fn read_interrupts() -> Interrupts {
    let [host_enables, host_status, local_enables, local_status] = numbers::<4>(&read_padded::<
        16,
    >());
    Interrupts {
        hint: register_of(host_enables, host_status),
        lint: register_of(local_enables, local_status),
    }
}

fn read_transfer() -> Transfer {
    let [running, direction, shared, pci, size, moved] = numbers::<6>(&read_padded::<24>());
    if running == 0 {
        return Transfer::Idle;
    }
    let request = Request {
        direction: (direction % 256) as u8,
        shared,
        pci,
        size,
    };
    Transfer::Running(request, moved)
}

fn read_dma() -> Dma {
    let [shared, pci, size, owner, inhibit, outward] = numbers::<6>(&read_padded::<24>());
    Dma {
        shared,
        pci,
        size,
        owner: pair_of(owner),
        inhibit: inhibit == 1,
        outward: outward == 1,
    }
}

// What a case says of a record.
fn read_card(settings: Settings) -> Card {
    Card {
        settings,
        fifos: Fifos {
            each: std::array::from_fn(|_| read_fifo()),
        },
        arbitration: Arbitration {
            pairs: numbers(&read_padded::<16>()).map(pair_of),
        },
        mailboxes: read_mailboxes(),
        interrupts: read_interrupts(),
        transfer: read_transfer(),
        dma: read_dma(),
    }
}

// What is called: an access, a register access, a burst that writes or one that reads.
#[derive(Clone, Copy, PartialEq, Eq)]
pub enum Call {
    Access,
    Register,
    Write,
    Read,
}

impl From<u8> for Call {
    fn from(number: u8) -> Call {
        match number {
            0 => Call::Access,
            1 => Call::Register,
            3 => Call::Read,
            _ => Call::Write,
        }
    }
}

// What is called, and the numbers of an access, which stand for those of every call.
pub fn read_call() -> (Call, Access) {
    let [packed, a, b, c] = numbers::<4>(&read_padded::<16>());
    let [kind, side, s, call] = packed.to_le_bytes();
    let access = Access {
        kind,
        side,
        s,
        a,
        b,
        c,
    };
    (Call::from(call), access)
}

// The number of a memory's next byte.
fn next(x: u64) -> u64 {
    (x % 2147483648 * 1103515245 + 12345) % 2147483648
}

// Fills a memory from a seed.
fn fill(memory: &mut [u8], seed: u64) {
    let mut x = seed;
    for byte in memory.iter_mut() {
        x = next(x);
        *byte = (x / 65536 % 256) as u8;
    }
}

// ANSWERED

// The card of a case: a given record, or a fresh card, whose number is written.
fn first_card(asked: Asked, settings: Settings) -> Card {
    if asked == Asked::Record {
        return read_card(settings);
    }
    match card::fresh(settings) {
        Ok(card) => {
            show(0, b'\n');
            card
        }
        Err(unfit) => {
            show(u64::from(Refusal::Unfit.number()), b'\n');
            unfit.card
        }
    }
}

// The calls of a case, then the record and the digests.
pub fn run_calls<F: FnMut(Card, &mut [u8], &mut [u8]) -> Card>(
    head: Head,
    shared: &mut [u8],
    window: &mut [u8],
    mut call: F,
)
    requires { F.IsAlwaysCallable call }
{
    let mut card = first_card(head.asked, head.settings);
    for _ in 0..head.count {
        card = call(card, shared, window);
    }
    show_card(card);
    show_line(&[testing::digest(shared), testing::digest(window)]);
}

const ROOM: usize = 65600;

// Answers the next case on memories of its lengths; false where there is none, or it has no room.
fn answer_case<F: FnMut(Head, &mut [u8], &mut [u8])>(
    shared: &mut [u8; ROOM],
    window: &mut [u8; ROOM],
    answer: &mut F,
) -> bool
    requires { (state : F) (head : _) (shared : _) (window : _) → F.pre state head shared window }
{
    let Some(head) = read_head() else {
        return false;
    };
    let (s, w) = (head.shared as usize, head.window as usize);
    if s > ROOM || w > ROOM {
        return false;
    }
    fill(&mut shared[..s], u64::from(head.seed));
    fill(&mut window[..w], u64::from(head.seed) + 1);
    answer(head, &mut shared[..s], &mut window[..w]);
    true
}

// Answers case after case.
pub fn each_case<F: FnMut(Head, &mut [u8], &mut [u8])>(mut answer: F)
    requires { (state : F) (head : _) (shared : _) (window : _) → F.pre state head shared window }
{
    let mut shared = [0; ROOM];
    let mut window = [0; ROOM];
    testing::each_case(
        ||
            requires { (state : F) (head : _) (shared : _) (window : _) → F.pre state head shared window }
        { answer_case(&mut shared, &mut window, &mut answer) },
    );
}

// WRITTEN OUT

pub fn show_answer(answer: Answer) {
    match answer {
        Ok(done) => show_line(&[0, u64::from(done.v), u64::from(done.x)]),
        Err(refusal) => show_line(&[u64::from(refusal.number()), 0, 0]),
    }
}

// The count and the entries held: of a count above 32, those that there are.
fn show_fifo(fifo: Fifo) {
    io::print_decimal(1, u64::from(fifo.count));
    for entry in fifo.entries.iter().take(fifo.count as usize) {
        io::write_all(1, b" ");
        io::print_decimal(1, u64::from(*entry));
    }
    io::write_all(1, b"\n");
}

fn show_arbitration(arbitration: Arbitration) {
    for (pair, after) in arbitration.pairs.iter().zip(b"   \n") {
        show(u64::from(pair.host), b' ');
        show(u64::from(pair.local), *after);
    }
}

fn show_mailboxes(mailboxes: Mailboxes) {
    show_line(&[
        u64::from(mailboxes.hldata),
        u64::from(mailboxes.lhdata),
        u64::from(mailboxes.lhwritten),
    ]);
}

fn show_interrupts(Interrupts { hint, lint }: Interrupts) {
    show_line(&[hint.enables, hint.status, lint.enables, lint.status].map(|events| u64::from(
        events.0,
    )));
}

fn show_transfer(transfer: Transfer) {
    match transfer {
        Transfer::Idle => show_line(&[0]),
        Transfer::Running(request, moved) => show_line(&[
            1,
            u64::from(request.direction),
            u64::from(request.shared),
            u64::from(request.pci),
            u64::from(request.size),
            u64::from(moved),
        ]),
    }
}

fn show_dma(dma: Dma) {
    show_line(&[
        u64::from(dma.shared),
        u64::from(dma.pci),
        u64::from(dma.size),
        u64::from(dma.owner.host),
        u64::from(dma.owner.local),
        u64::from(dma.inhibit),
        u64::from(dma.outward),
    ]);
}

fn show_settings(settings: Settings) {
    let Settings {
        base,
        length,
        lo,
        hi,
    } = settings;
    show_line(&[base, length, lo, hi].map(u64::from));
}

// The whole record.
pub fn show_card(card: Card) {
    show_settings(card.settings);
    for fifo in card.fifos.each {
        show_fifo(fifo);
    }
    show_arbitration(card.arbitration);
    show_mailboxes(card.mailboxes);
    show_interrupts(card.interrupts);
    show_transfer(card.transfer);
    show_dma(card.dma);
}
