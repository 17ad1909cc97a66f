// Document 02, L10: the phases of a burst: what one is, where the dword address goes, the checks, and their single accesses done in place.
#![tactic(auto)]

ghost use Rattle.std.specs.Prelude.{◌≡◌, true, ◌&&◌, ◌||◌, [], ◌≤◌, eqb, ltb, length, if◌then◌else◌};
ghost use Rattle.model.specs.Checks.{refusal, above, shared_length};
ghost use Rattle.model.specs.Pins.{decode};
ghost use Rattle.model.specs.Bursts.{reads, writes, advances, next, last_dword, list_after, shared_from, entries_from, left_by, value_in};
ghost use Rattle.access.specs.Bridge.{refusal_as};
ghost use Rattle.phases.specs.Bridge.{phase_as, phases_as, total_as, OverrunByCase, pins_fit, all_low, checks_of};
ghost use Rattle.phases.specs.declared.Stop.TheVariants.{Refused};

use access::Refusal;
use pins::Decoded;

// "a list of phases, each with pins and data"
#[derive(Clone, Copy)]
pub struct Phase {
    pub pins: u32,
    pub dq: u32,
}

impl Phase {
    pub fn new(pins: u32, dq: u32) -> Phase
        ensures { phase_as result ≡ record { pins = pins; dq = dq } }
    {
        Phase { pins, dq }
    }
}

// Why a burst is not done to its end: refused, or stopped at a phase past the last dword, with the phases done before it.
#[derive(Clone, Copy, PartialEq, Eq)]
pub enum Stop {
    Refused(Refusal),
    Overrun(u32),
}

impl From<Refusal> for Stop {
    ghost from_gives = { λ refusal stop. stop ≡ Refused refusal };

    fn from(refusal: Refusal) -> Stop {
        Stop::Refused(refusal)
    }
}

// THE DWORD ADDRESS

const LAST_DWORD: u32 = 4095;

// "In mode 0 the dword address advances after a phase with BE[3:2] at 11, in mode 1 after a phase with BE[3] high, in mode 3 after each phase."
fn advances(mode: u8, pins: u32) -> bool
    ensures { result ≡ advances mode pins }
{
    match mode {
        0 => pins / 4 == 0b11,
        1 => pins / 8 % 2 == 1,
        3 => true,
        _ => false,
    }
}

// The dword address after a phase.
fn next(mode: u8, phase: Phase, d: u32) -> u32
    requires { d ≤ last_dword }
    ensures { result ≡ next mode (phase_as phase).pins d }
{
    if advances(mode, phase.pins) { d + 1 } else { d }
}

// THE CHECKS

// Cause 12: "a mode of 2 or above 3 or more than 65,536 phases".
fn no_burst(mode: u8, phases: usize) -> bool
    ensures { result ≡ (eqb mode 2 || above 3 mode || above 65536 phases) }
{
    (mode == 2) | (3 < mode) | (65536 < phases)
}

// The contrary of cause 4: "any phase's pins above 15". All are looked at, without a branch: by `all`, which stops at the first above 15, bursts of
// mode 3 moved 720 million dwords a second where by this they moved 1,000, phase by phase.
fn pins_fit(phases: &[Phase]) -> bool
    ensures { result ≡ pins_fit (phases_as phases.now) }
{
    phases
        .iter()
        .fold(true, |fit, phase| fit & (phase.pins <= 15))
}

// Whether all pins of all phases are low. All are looked at, without a branch, as in `pins_fit`.
fn all_low(phases: &[Phase]) -> bool
    ensures { result ≡ all_low (phases_as phases.now) }
{
    phases
        .iter()
        .fold(true, |low, phase| low & (phase.pins == 0))
}

// 1, 2, and "in this order after 1 and 2: 5 the host side, 12 .., 4 any phase's pins above 15, 14 a read list shorter than the phases".
pub fn checks(unfit: bool, side: u8, mode: u8, phases: &[Phase], short: bool) -> Result<(), Refusal>
    ensures { refusal_as result ≡ refusal (checks_of unfit side mode (phases_as phases.now) short) }
{
    Refusal::Unfit.when(unfit)?;
    Refusal::Unknown.when(1 < side)?;
    Refusal::WrongSide.when(access::wrong_side(access::LOCAL, side))?;
    Refusal::NoBurst.when(no_burst(mode, phases.len()))?;
    Refusal::Selector.when(!pins_fit(phases))?;
    Refusal::ShortList.when(short)
}

// THE SINGLE ACCESSES, in place: past the checks each is done, so that neither record nor checks are looked at again.

// The lanes and the dword of a phase. All pins above 15 are refused alike.
#[tactic(auto, using(crate::specs::Laws::decode_cut))]
fn decoded(mode: u8, phase: Phase) -> Decoded
    ensures lanes { result.lanes ≡ (decode mode phase.pins phase.dq).lanes }
    ensures dword { result.dword ≡ (decode mode phase.pins phase.dq).dword }
{
    let pins = phase.pins.min(255) as u8;
    pins::decode(mode, pins, phase.dq).unwrap_or(Decoded::refused())
}

// All pins low on a bus of 32 bits: the whole dword, for which no lanes are to be worked out.
fn whole(mode: u8, phase: Phase) -> bool
    ensures { result ≡ (eqb mode 3 && eqb phase.pins 0) }
{
    (mode == 3) & (phase.pins == 0)
}

fn write_phase(shared: &mut [u8], mode: u8, d: u32, phase: Phase)
    requires { (length shared.old ≡ shared_length) × (d ≤ last_dword) }
    ensures { shared.new ≡ left_by writes mode d (phase_as phase) shared.old }
{
    let at = 4 * d as usize;
    if whole(mode, phase) {
        lanes::write_dword(shared, at, lanes::ALL_LANES, phase.dq);
        return;
    }
    let lanes = decoded(mode, phase);
    lanes::write_dword(shared, at, lanes.lanes, lanes.dword);
}

fn read_phase(shared: &[u8], mode: u8, d: u32, phase: Phase) -> u32
    requires { (length shared.now ≡ shared_length) × (d ≤ last_dword) }
    ensures { result ≡ value_in (reads []) mode d (phase_as phase) shared.now }
{
    let at = 4 * d as usize;
    if whole(mode, phase) {
        return lanes::read_dword(shared, at, lanes::ALL_LANES);
    }
    let lanes = decoded(mode, phase);
    lanes::read_dword(shared, at, lanes.lanes)
}

// Phases that are whole dwords, one dword after another.
fn write_dwords(shared: &mut [u8], start: u32, phases: &[Phase]) -> u32
    requires { (length shared.old ≡ shared_length) × (length phases.now ≤ 65536) × (all_low (phases_as phases.now) ≡ true) }
    ensures value { result ≡ length (entries_from writes 3 start (phases_as phases.now) shared.old) }
    ensures shared_after { shared.new ≡ shared_from writes 3 start (phases_as phases.now) shared.old }
{
    let mut d = start;
    for (i, phase) in phases.iter().enumerate() {
        if d > LAST_DWORD {
            return i as u32;
        }
        lanes::write_dword(shared, 4 * d as usize, lanes::ALL_LANES, phase.dq);
        d += 1;
    }
    phases.len() as u32
}

fn read_dwords(shared: &[u8], start: u32, phases: &[Phase], list: &mut [u32]) -> u32
    requires { (length shared.now ≡ shared_length) × (length phases.now ≤ 65536) × (length phases.now ≤ length list.old) × (all_low (phases_as phases.now) ≡ true) }
    ensures value { result ≡ length (entries_from (reads list.old) 3 start (phases_as phases.now) shared.now) }
    ensures list_after { list.new ≡ list_after (reads list.old) (entries_from (reads list.old) 3 start (phases_as phases.now) shared.now) }
{
    let mut d = start;
    for i in 0..phases.len() {
        if d > LAST_DWORD {
            return i as u32;
        }
        list[i] = lanes::read_dword(shared, 4 * d as usize, lanes::ALL_LANES);
        d += 1;
    }
    phases.len() as u32
}

// Writes the phases up to the first that stands past the last dword, and answers how many were done.
pub fn write_phases(shared: &mut [u8], mode: u8, start: u32, phases: &[Phase]) -> u32
    requires { (length shared.old ≡ shared_length) × (length phases.now ≤ 65536) }
    ensures value { result ≡ length (entries_from writes mode start (phases_as phases.now) shared.old) }
    ensures shared_after { shared.new ≡ shared_from writes mode start (phases_as phases.now) shared.old }
{
    // Where no pins are to be looked at, phase by phase, a burst takes half the time.
    if mode == 3 && all_low(phases) {
        return write_dwords(shared, start, phases);
    }
    let mut d = start;
    for (i, phase) in phases.iter().enumerate() {
        if d > LAST_DWORD {
            return i as u32;
        }
        write_phase(shared, mode, d, *phase);
        d = next(mode, *phase, d);
    }
    phases.len() as u32
}

// As `write_phases` goes along, but for what is lent: one walk of both, with the act handed in, would forget what that does to memory or list.
// Reads the phases up to the first that stands past the last dword, each one's V into its place of the list, and answers how many were done.
pub fn read_phases(shared: &[u8], mode: u8, start: u32, phases: &[Phase], list: &mut [u32]) -> u32
    requires { (length shared.now ≡ shared_length) × (length phases.now ≤ 65536) × (length phases.now ≤ length list.old) }
    ensures value { result ≡ length (entries_from (reads list.old) mode start (phases_as phases.now) shared.now) }
    ensures list_after { list.new ≡ list_after (reads list.old) (entries_from (reads list.old) mode start (phases_as phases.now) shared.now) }
{
    if mode == 3 && all_low(phases) {
        return read_dwords(shared, start, phases, list);
    }
    let mut d = start;
    for (i, phase) in phases.iter().enumerate() {
        if d > LAST_DWORD {
            return i as u32;
        }
        list[i] = read_phase(shared, mode, d, *phase);
        d = next(mode, *phase, d);
    }
    phases.len() as u32
}

// WHAT A BURST ANSWERS: "V is the phases done"; "13 the overrun, which amends rule 1 and keeps that V".
pub fn ended(done: u32, phases: usize) -> Result<u32, Stop>
    ensures value { total_as result ≡ record { number = if ltb done phases then 13 else 0; v = done; x = 0 } }
    ensures by_case { OverrunByCase result }
{
    if (done as usize) < phases {
        return Err(Stop::Overrun(done));
    }
    Ok(done)
}
