// Rules 7 and 8: block status and status word.
ghost use Rattle.std.specs.Prelude.{◌≡◌};
ghost use Rattle.faults.specs.Fault.{any_fault};
ghost use Rattle.plan.specs.Report.{block_status, status_bits, status_word};

use faults::fault::Faults;
use lookup::target::Target;
use words::bits::word_of;
use words::settings::Settings;

// `fault` tells whether there is any: whoever asks has worked it out.
#[tactic(auto, unfolding(crate::specs::Report::block_status))]
pub(crate) fn block_status(
    second_bus: bool,
    transfer: bool,
    f: Faults,
    fault: bool,
    rollover: bool,
    illegal: bool,
) -> u16
    requires { fault ≡ any_fault f }
    ensures { result ≡ block_status second_bus transfer f rollover illegal }
{
    word_of([
        true,
        false,
        second_bus,
        fault,
        transfer,
        fault,
        f.no_status,
        false,
        rollover,
        illegal,
        f.count,
        f.sync,
        f.invalid,
        f.gap,
        f.second,
        f.contents,
    ])
}

#[tactic(auto, unfolding(crate::specs::Report::status_bits))]
fn status_bits(s: Settings, t: Target, valid: bool) -> u16
    ensures { result ≡ status_bits s t valid }
{
    let error = !valid || t.illegal;
    word_of([
        false,
        false,
        false,
        false,
        false,
        error,
        false,
        s.service_request,
        false,
        false,
        false,
        t.broadcast,
        t.busy,
        s.subsystem_flag,
        false,
        s.terminal_flag,
    ])
}

#[tactic(auto, unfolding(crate::specs::Report::status_word), using(crate::proofs::StatusBits::status_bits_low))]
pub(crate) fn status_word(s: Settings, t: Target, valid: bool) -> u16
    ensures { result ≡ status_word s t valid }
{
    0x0800 * (s.address % 32) + status_bits(s, t, valid)
}
