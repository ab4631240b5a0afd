// The memory of the checker.
ghost use Rattle.std.specs.Prelude.{◌≤◌, vec_len};

use values::Table;

// A value table, and a buffer that every listing of a tree file fits in.
#[derive(Drop)]
pub struct Checker {
    pub(crate) table: Table,
    pub(crate) buffer: Vec<u8>,
    ghost long: { 32768 ≤ vec_len buffer },
}
