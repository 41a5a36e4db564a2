// What mode commands have the terminal remember from one message to the next: three marks.
ghost use Rattle.std.specs.Prelude.{◌≡◌};
ghost use Rattle.modes.specs.Remembered.{no_marks, is_shut, with_other_bus, with_inhibit};

// Set and cleared by mode commands: bus A shut, bus B shut, the terminal flag inhibited.
#[derive(Clone, Copy, Debug, Default, PartialEq, Eq)]
pub struct Marks {
    pub shut_a: bool,
    pub shut_b: bool,
    pub inhibited: bool,
}

pub fn no_marks() -> Marks
    ensures { result ≡ no_marks }
{
    Marks::default()
}

// Whether the bus that a message came on is shut.
pub fn is_shut(marks: Marks, second_bus: bool) -> bool
    ensures { result ≡ is_shut marks second_bus }
{
    if second_bus {
        marks.shut_b
    } else {
        marks.shut_a
    }
}

// The mark of the bus that a command did not use.
pub fn with_other_bus(marks: Marks, second_bus: bool, shut: bool) -> Marks
    ensures { result ≡ with_other_bus marks second_bus shut }
{
    if second_bus {
        Marks {
            shut_a: shut,
            ..marks
        }
    } else {
        Marks {
            shut_b: shut,
            ..marks
        }
    }
}

pub fn with_inhibit(marks: Marks, inhibited: bool) -> Marks
    ensures { result ≡ with_inhibit marks inhibited }
{
    Marks { inhibited, ..marks }
}
