// Reading and writing lent memory: RAM, and the tables and texts that are lent beside it. All is total: a place past
// the end reads as the caller says, 0 in RAM, and takes nothing, so definition and code agree everywhere. A sound
// message never goes there.
ghost use Rattle.std.specs.Prelude.{◌≡◌, get_or, set};

// The item at a place, or else this other one.
pub fn item_or<T: Copy>(items: &[T], at: usize, other: T) -> T
    ensures { result ≡ get_or items.now at other }
{
    items.get(at).copied().unwrap_or(other)
}

// The word at a place, 0 past the end.
pub fn word_at(ram: &[u16], at: usize) -> u16
    ensures { result ≡ get_or ram.now at 0 }
{
    item_or(ram, at, 0)
}

// An index after a test, since `get_mut` of a slice tells a proof the length alone.
pub fn put<T: Copy>(ram: &mut [T], at: usize, word: T)
    ensures { ram.new ≡ set ram.old at word }
{
    if at < ram.len() {
        ram[at] = word;
    }
}
