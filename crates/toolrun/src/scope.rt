// What a tool runs over: a value of the table.
use values::{Number, Table};

// The value under a number; paths that are fetched lead down from it.
#[derive(Clone, Copy)]
pub struct Scope<'t> {
    pub table: &'t Table,
    pub root: Number,
}
