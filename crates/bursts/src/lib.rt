// Document 02, L10: local bursts of shared memory at bus widths of 8, 16 and 32 bits, modes 0, 1 and 3.
#![tactic(auto)]

ghost use Rattle.std.specs.Prelude.{◌≡◌, []};
ghost use Rattle.model.specs.Bursts.{reads, writes, burst};
ghost use Rattle.card.specs.Bridge.{world_as};
ghost use Rattle.phases.specs.Bridge.{phases_as, told_as, OverrunByCase};

use card::Card;
use phases::{Phase, Stop};

// A burst write. The record never changes, and is not handed back.
pub fn write(
    card: Card,
    shared: &mut [u8],
    window: &[u8],
    side: u8,
    mode: u8,
    start: u32,
    phases: &[Phase],
) -> Result<u32, Stop>
    ensures told { record { answer = told_as result []; world = world_as card shared.new window.now } ≡ burst (world_as card shared.old window.now) (record { way = writes; side = side; mode = mode; start = start; phases = phases_as phases.now }) }
    ensures by_case { OverrunByCase result }
{
    let unfit = !device::fits(card, shared.len(), window.len());
    phases::checks(unfit, side, mode, phases, false)?;
    phases::ended(
        phases::write_phases(shared, mode, start, phases),
        phases.len(),
    )
}

// A burst read: "A read list gets each phase's V; its other places stay."
pub fn read(
    card: Card,
    shared: &[u8],
    window: &[u8],
    side: u8,
    mode: u8,
    start: u32,
    phases: &[Phase],
    list: &mut [u32],
) -> Result<u32, Stop>
    ensures told { record { answer = told_as result list.new; world = world_as card shared.now window.now } ≡ burst (world_as card shared.now window.now) (record { way = reads list.old; side = side; mode = mode; start = start; phases = phases_as phases.now }) }
    ensures by_case { OverrunByCase result }
{
    let unfit = !device::fits(card, shared.len(), window.len());
    phases::checks(unfit, side, mode, phases, list.len() < phases.len())?;
    phases::ended(
        phases::read_phases(shared, mode, start, phases, list),
        phases.len(),
    )
}
