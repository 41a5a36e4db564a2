// What a write of a message is: which of the list of writes.

// Each write of a message is one of these.
#[derive(Clone, Copy, Debug, PartialEq, Eq)]
pub enum Part {
    // a data word, by its place in the message, counted from 1
    Data(u16),
    // the lookup pointer of the message's cell
    Pointer,
    // a word of the descriptor: 1 block status, 2 time tag, 3 lookup pointer before the message, 4 command
    Stack(u16),
    StackPointer,
}
