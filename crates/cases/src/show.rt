// Printing, and the forms in which values are shown.
use std::fmt;
use std::io::Print;

// Text as it is. Where it cannot be written, what is stored shows it.
pub(crate) fn tell(rt: &impl Print, text: impl fmt::Display + Drop) {
    rt.print(text).unwrap_or(());
}

// Bytes as they are.
pub(crate) fn tell_bytes(rt: &impl Print, bytes: &[u8]) {
    rt.write_all(bytes).unwrap_or(());
}

// A yes or no.
#[derive(Clone, Copy)]
pub(crate) struct Answer(pub bool);

impl fmt::Display for Answer {
    fn fmt<W: fmt::Write>(&self, f: &mut fmt::Formatter<W>) -> fmt::Result {
        f.write_str(if self.0 { "yes" } else { "no" })
    }
}
