// The work of bench/run for bursts: 4,096 dwords written and read back, round after round, by bursts of mode 3 or by the same single accesses.
// Reads cases of two numbers of four bytes, least byte first: 0 for bursts or 1 for single accesses, and the rounds. Writes a sum for each, which
// is that of oracle/src/bursts/workload.rs.
#![tactic(auto)]

use access::{Access, Kind};
use card::Card;
use phases::Phase;
use settings::Settings;

// The dwords of shared memory, each of which has its phase and its place of the list.
const DWORDS: usize = 4096;

// THE PHASES: all lanes, data that differ

fn first_phase(i: usize) -> Phase {
    Phase {
        pins: 0,
        dq: ((i % DWORDS) as u32).wrapping_mul(2654435761),
    }
}

// The single access of phase `i`.
fn single(kind: Kind, i: usize, dword: u32) -> Access {
    Access {
        kind: kind as u8,
        side: access::LOCAL,
        s: lanes::ALL_LANES,
        a: 4 * (i % DWORDS) as u32,
        b: dword,
        c: 0,
    }
}

// What the rounds work on.
#[derive(Drop)]
struct Bench {
    card: Card,
    shared: [u8; 16384],
    window: [u8; 32768],
    phases: [Phase; DWORDS],
    list: [u32; DWORDS],
}

impl Bench {
    // A fresh card of the replay's settings.
    fn new() -> Bench {
        let settings = Settings {
            base: 268435456,
            length: 32768,
            lo: 28672,
            hi: 32768,
        };
        Bench {
            card: card::fresh(settings).unwrap_or_else(|unfit| unfit.card),
            shared: [0; 16384],
            window: [0; 32768],
            phases: std::array::from_fn(first_phase),
            list: [0; DWORDS],
        }
    }

    // ONE ROUND: the phases written from dword 0 on, and read back into the list

    fn by_bursts(&mut self) {
        let _ = bursts::write(
            self.card,
            &mut self.shared,
            &self.window,
            access::LOCAL,
            3,
            0,
            &self.phases,
        );
        let _ = bursts::read(
            self.card,
            &self.shared,
            &self.window,
            access::LOCAL,
            3,
            0,
            &self.phases,
            &mut self.list,
        );
    }

    fn by_singles(&mut self) {
        for (i, phase) in self.phases.iter().enumerate() {
            let q = single(Kind::SharedWrite, i, phase.dq);
            self.card = device::access(self.card, &mut self.shared, &mut self.window, q).card;
        }
        for (i, place) in self.list.iter_mut().enumerate() {
            let q = single(Kind::SharedRead, i, 0);
            let outcome = device::access(self.card, &mut self.shared, &mut self.window, q);
            *place = outcome.answer.map_or(0, |done| done.v);
            self.card = outcome.card;
        }
    }

    // A dword of the list goes into the sum, and the sum into a phase, the next round's data: dword after dword, round and round.
    fn next_sum(&mut self, sum: u64, round: u32) -> u64 {
        let at = round as usize % DWORDS;
        let next = testing::with_number(sum, self.list[at]);
        self.phases[at].dq = (next % 4294967296) as u32;
        next
    }
}

// ROUND AFTER ROUND
fn run<F: FnMut(&mut Bench)>(rounds: u32, mut round: F) -> u64
    requires { F.IsAlwaysCallable round }
{
    let mut bench = Bench::new();
    let mut sum = 0;
    for i in 0..rounds {
        round(&mut bench);
        sum = bench.next_sum(sum, i);
    }
    sum
}

// Reads a case and writes its sum; false where the input ends.
fn run_case() -> bool {
    let Some(bytes) = testing::read_case::<8>() else {
        return false;
    };
    let [how, rounds] = testing::numbers::<2>(&bytes);
    let sum = if how == 0 {
        run(rounds, Bench::by_bursts)
    } else {
        run(rounds, Bench::by_singles)
    };
    testing::show(sum, b'\n');
    true
}

fn main() {
    testing::each_case(run_case);
}
