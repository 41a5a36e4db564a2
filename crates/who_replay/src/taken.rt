// One record as the terminal takes it, for those who do not ask for its reply.
ghost use Rattle.std.specs.Prelude.{◌≡◌};
ghost use Rattle.message.specs.Heard.{heard_bytes};
ghost use Rattle.message.specs.Message.{step};
ghost use Rattle.message.specs.Performed.{performed_of};
ghost use Rattle.who.specs.Replay.{terminal_of};

use message::heard::perform_bytes;
use message::perform::Performed;
use words::remembered::Remembered;
use words::settings::Settings;

// A record, whatever RAM and settings are: where they are refused, every record is.
pub(crate) fn take_record(
    ram: &mut [u16],
    s: Settings,
    before: Remembered,
    bytes: &[u8],
) -> Performed
    ensures taken { result ≡ performed_of s (heard_bytes bytes.now) (terminal_of ram.old before) }
    ensures ram { ram.new ≡ (step s (heard_bytes bytes.now) (terminal_of ram.old before)).ram }
{
    let mut reply = [0u16; 33];
    perform_bytes(ram, &mut reply, s, before, bytes)
}
