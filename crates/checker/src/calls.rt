// Showing what value a tree file is.
ghost use Rattle.std.specs.Prelude.{◌≡◌, true, false, [], ◌∷◌, take, IfOk};
ghost use Rattle.values.specs.Values.{truth};
ghost use Rattle.values.specs.Memory.{values};
ghost use Rattle.checker.specs.Shows.{Shows};

use crate::answers::Unshown;
use crate::desk::Checker;
use entering::enter;
use listing::list;
use std::alloc::{AllocError, Global};
use trees::{Tree, check};
use values::Table;

// How long the buffer is: 1 MiB.
const BUFFER_LEN: usize = 1048576;

impl Checker {
    // A checker with all the memory that it will ever need.
    pub fn new(heap: Global) -> Result<Checker, AllocError>
        ensures { IfOk result (λ c. values c.table ≡ truth true ∷ truth false ∷ []) }
    {
        let table = Table::new(heap)?;
        let buffer = Vec::from_elem(heap, 0, BUFFER_LEN)?;
        Ok(Checker { table, buffer })
    }

    // Checks any bytes as a tree file and, if they are accepted, lists their value into the buffer: so many bytes at its front. The value
    // table is as before. A length is answered, and not the bytes: they would keep the checker lent, and no clause could say what it is then.
    pub fn show(&mut self, bytes: &[u8]) -> Result<usize, Unshown>
        ensures shown { Shows bytes.now (values self.old.table) result self.new.buffer.items }
        ensures kept { values self.new.table ≡ values self.old.table }
    {
        check(bytes)?;
        let tree = Tree { bytes };
        let len = self.table.len();
        let number = enter(&tree, &mut self.table)?;
        let listed = list(&self.table, number, &mut self.buffer);
        self.table.truncate(len);
        match listed {
            Ok(end) => Ok(end),
            Err(_) => unreachable(),
        }
    }

    // The first bytes of the buffer.
    pub fn front(&self, len: usize) -> &[u8]
        ensures { result.now ≡ take len self.now.buffer.items }
    {
        let end = len.min(self.buffer.len());
        &self.buffer[..end]
    }
}
