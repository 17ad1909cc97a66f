// "A transfer's source bytes as a part of whichever memory holds them, not a copy."
#![tactic(auto)]

ghost use Rattle.std.specs.Prelude.{◌≡◌};
ghost use Rattle.model.specs.Checks.{refusal};
ghost use Rattle.model.specs.Transfer.{request_of};
ghost use Rattle.model.specs.Source.{source_checks, source};
ghost use Rattle.access.specs.Bridge.{refusal_as};
ghost use Rattle.settings.specs.Bridge.{settings_as};
ghost use Rattle.transfer.specs.Bridge.{request_as};
ghost use Rattle.source.specs.Bridge.{lent_part};

use access::Refusal;
use settings::Settings;
use transfer::Request;

// "Any of causes 1, 4, 7, 8, 9 refuses .. here 9 also covers a window source not wholly in the window."
fn checks(settings: Settings, request: Request, shared: &[u8], window: &[u8]) -> Result<(), Refusal>
    ensures { refusal_as result ≡ refusal (source_checks (settings_as settings) shared.now window.now (request_as request)) }
{
    let fit = settings.pass() & settings.lengths_fit(shared.len(), window.len());
    let outside = settings.outside_window(request.pci, request.size);
    Refusal::Unfit.when(!fit)?;
    Refusal::Selector.when(1 < request.direction)?;
    request.checks()?;
    Refusal::Address.when((request.direction == 0) & outside)
}

// The part of shared memory or of the window, chosen by the direction. "A refusal gives the empty part at the start of shared memory."
pub fn source<'a>(
    settings: Settings,
    shared: &'a [u8],
    window: &'a [u8],
    direction: u8,
    a: u32,
    b: u32,
    c: u32,
) -> &'a [u8]
    ensures { record { at = result.ref_ptr; bytes = result.now }
        ≡ lent_part shared.entry window.entry (source (settings_as settings) shared.now window.now (request_of direction a b c)) }
{
    let request = Request {
        direction,
        shared: a,
        pci: b,
        size: c,
    };
    if checks(settings, request, shared, window).is_err() {
        return &shared[0..0];
    }
    let count = c as usize;
    if direction == 0 {
        let from = settings.offset(b);
        let end = from + count;
        return &window[from..end];
    }
    let from = a as usize;
    let end = from + count;
    &shared[from..end]
}
