// What a keeper keeps of each entry.
ghost use Rattle.std.specs.Prelude.{◌≤◌};

use crate::keys::Key;
use values::Number;

// An entry: its answers stand in a row that all entries share, `len` of them from `from` on.
// Not a Range: the contracts count answers by `len`, which would be a difference.
#[derive(Drop)]
pub struct Slot {
    pub(crate) key: Key,
    pub(crate) product: Number,
    pub(crate) from: usize,
    pub(crate) len: usize,
    ghost few: { len ≤ 64 },
}

// A line of the index: an entry's key and its number, so that entries of one key stand in the order of their age.
#[derive(Clone, Copy, PartialEq, Eq, PartialOrd, Ord)]
pub struct Indexed {
    pub(crate) key: Key,
    pub(crate) entry: u16,
}
