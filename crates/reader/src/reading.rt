// Where a reading stands.
ghost use Rattle.std.specs.Prelude.{◌≤◌};

use scanner::Scanner;

// A reading means a place among the tokens of a function: how many of them were read, how many bytes these have with a
// blank before each, and what is still to come.
#[derive(Drop)]
pub struct Reading<'a> {
    pub(crate) scanner: Scanner<'a>,
    pub(crate) index: usize,
    pub(crate) size: usize,
    ghost short: { size ≤ 1025 },
    ghost few: { index ≤ size },
}
