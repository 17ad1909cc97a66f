// The burst of a case of the test programs: its phases read, the burst done, and its answer written out.
// What stands where is said in oracle/src/programs/bursts/mod.rs.
#![tactic(auto)]

use access::Refusal;
use card::Card;
use phases::{Phase, Stop};
use testing::show;

// What a case says of a burst before its phases: how many they are, and of a read how many places the list has.
#[derive(Clone, Copy)]
pub struct Burst {
    pub reads: bool,
    pub side: u8,
    pub mode: u8,
    pub start: u32,
    pub phases: u32,
    pub places: u32,
}

// PHASES AND LIST

// The most phases, and the most places of a list, that a case has.
const MOST: usize = 65600;

fn read_number() -> u32 {
    testing::number_at(&testing::read_padded::<4>(), 0)
}

fn read_phase() -> Phase {
    let [pins, dq] = testing::numbers::<2>(&testing::read_padded::<8>());
    Phase::new(pins, dq)
}

// The phases of a burst: so many are stored, and they come round again.
fn read_phases(phases: &mut [Phase]) {
    let stored = read_number() as usize;
    // By its place, since one looks back at another.
    for i in 0..phases.len() {
        phases[i] = if i < stored {
            read_phase()
        } else {
            phases[i - stored]
        };
    }
}

// What a place of the list holds before a read.
fn place(i: usize) -> u32 {
    0xc0de_0000_u32.wrapping_add((i % 4294967296) as u32)
}

fn fill_list(list: &mut [u32]) {
    for (i, held) in list.iter_mut().enumerate() {
        *held = place(i);
    }
}

// WRITTEN OUT

// Of a burst its answer, and the digest of shared memory.
fn show_total(total: Result<u32, Stop>, shared: &[u8]) {
    let (number, v) = match total {
        Ok(v) => (0, v),
        Err(Stop::Refused(refusal)) => (refusal.number(), 0),
        Err(Stop::Overrun(v)) => (Refusal::Overrun.number(), v),
    };
    testing::show_line(&[u64::from(number), u64::from(v), 0, testing::digest(shared)]);
}

// The first 64 places of a list, and the digest of all.
fn show_list(list: &[u32]) {
    for place in list.iter().take(64) {
        show(u64::from(*place), b' ');
    }
    let sum = list
        .iter()
        .fold(0, |sum, place| testing::with_number(sum, *place));
    show(sum, b'\n');
}

// DONE

fn run_write(card: Card, shared: &mut [u8], window: &[u8], burst: Burst, phases: &[Phase]) {
    let total = bursts::write(
        card,
        shared,
        window,
        burst.side,
        burst.mode,
        burst.start,
        phases,
    );
    show_total(total, shared);
}

fn run_read(
    card: Card,
    shared: &[u8],
    window: &[u8],
    burst: Burst,
    phases: &[Phase],
    list: &mut [u32],
) {
    fill_list(list);
    let total = bursts::read(
        card,
        shared,
        window,
        burst.side,
        burst.mode,
        burst.start,
        phases,
        list,
    );
    show_total(total, shared);
    show_list(list);
}

// A burst that has room here: its phases and its list are parts of what there is.
pub fn run(card: Card, shared: &mut [u8], window: &[u8], burst: Burst) {
    let count = burst.phases as usize;
    let places = burst.places as usize;
    if count > MOST || places > MOST {
        return;
    }
    let mut phases = [Phase { pins: 0, dq: 0 }; MOST];
    let phases = &mut phases[..count];
    read_phases(phases);
    if burst.reads {
        let mut list = [0; MOST];
        run_read(card, shared, window, burst, phases, &mut list[..places]);
    } else {
        run_write(card, shared, window, burst, phases);
    }
}
