// Entering a tree into the value table.
ghost use Rattle.values.specs.Memory.{values};
ghost use Rattle.trees.specs.Accepted.{tree_value};
ghost use Rattle.entering.specs.Entries.{EntersAll};

use crate::answers::Full;
use crate::members::enter_members;
use trees::Tree;
use values::{GREATEST_HEIGHT, Number, Table};

// Enters an accepted tree with all its names and values: the number of its value, or that the table is full and as it was.
pub fn enter(tree: &Tree<'_>, table: &mut Table) -> Result<Number, Full>
    ensures { EntersAll (tree_value tree.now) (values table.old) result (values table.new) }
{
    let len = table.len();
    // No `?`: a table that has no room is taken back first.
    match enter_members(table, b"", tree.bytes, GREATEST_HEIGHT as usize) {
        Ok((number, _)) => Ok(number),
        Err(full) => {
            table.truncate(len);
            Err(full)
        }
    }
}
