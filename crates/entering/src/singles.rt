// Entering one value that keeps the limits: all that can be missing is room.
ghost use Rattle.std.specs.Prelude.{◌≡◌, ◌≤◌, [], ◌∷◌, length};
ghost use Rattle.values.specs.Values.{Value};
ghost use Rattle.values.specs.Memory.{values};
ghost use Rattle.entering.specs.Steps.{EntersEach, HasMembers, EntersMembers};

use crate::answers::Full;
use values::{Member, Number, Table};

// Enters a text.
pub(crate) fn enter_text(table: &mut Table, bytes: &[u8]) -> Result<Number, Full>
    requires { length bytes.now ≤ 1024 }
    ensures { EntersEach (Value.text bytes.now ∷ []) (Value.text bytes.now) (values table.old) result (values table.new) }
{
    table.enter_text(bytes).map_err(|_| Full)
}

// Enters a binding by its members.
pub(crate) fn enter_binding(table: &mut Table, members: &[Member]) -> Result<Number, Full>
    requires { HasMembers (values table.old) members.now }
    ensures { EntersMembers members.now (values table.old) result (values table.new) }
{
    table.enter_binding(members).map_err(|_| Full)
}
