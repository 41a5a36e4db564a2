// The active stack: its pointer, its block, and why it is unsound.
ghost use Rattle.std.specs.Prelude.{◌≡◌};
ghost use Rattle.soundness.specs.Described.{described_stack, no_stack, stack_description};

use crate::faults::stack_faults;
use crate::ground::given_refusal;
use cells::stack::{stack_pointer, stack_window};
use words::settings::Settings;

// The number that refuses, or 0; then the stack pointer, where its block starts and how many words it has, and its
// faults.
#[derive(Clone, Copy, Debug, Default, PartialEq, Eq)]
pub struct StackDescription {
    pub number: u16,
    pub pointer: u16,
    pub start: u16,
    pub size: u16,
    pub faults: u16,
}

// The number, the rest zero.
#[tactic(auto, unfolding(crate::specs::Described::no_stack))]
fn no_stack(number: u16) -> StackDescription
    ensures { result ≡ no_stack number }
{
    StackDescription {
        number,
        ..StackDescription::default()
    }
}

#[tactic(auto, unfolding(crate::specs::Described::described_stack))]
fn described_stack(ram: &[u16], s: Settings) -> StackDescription
    ensures { result ≡ described_stack ram.now s }
{
    let w = stack_window(ram, s);
    StackDescription {
        number: 0,
        pointer: stack_pointer(ram, s),
        start: w.start,
        size: w.size,
        faults: stack_faults(ram, s),
    }
}

#[tactic(auto, unfolding(crate::specs::Described::stack_description))]
pub fn describe_stack(ram: &[u16], s: Settings) -> StackDescription
    ensures { result ≡ stack_description ram.now s }
{
    let refused = given_refusal(ram.len(), s);
    if refused != 0 {
        return no_stack(refused);
    }
    described_stack(ram, s)
}
