// Places in a value, of which questions ask.
use crate::paths::Path;

// Where a place begins: at `.`, or at a parameter by its number.
#[derive(Clone, Copy, PartialEq, Eq)]
pub enum Root {
    Dot,
    Param(u8),
}

// A place: what stands at a path below a root.
#[derive(Clone, Copy, PartialEq, Eq)]
pub struct Place {
    pub root: Root,
    pub path: Path,
}
