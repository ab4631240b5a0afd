// Following a path from member to member.
ghost use Rattle.std.specs.Prelude.{◌≡◌};
ghost use Rattle.values.specs.Values.{nth};
ghost use Rattle.values.specs.Table.{Numbered};
ghost use Rattle.values.specs.Memory.{values};
ghost use Rattle.trees.specs.Files.{split};
ghost use Rattle.lookup.specs.Finds.{looked};

use values::{Number, Table};

// The number of what stands at a path, names parted by `/`, in the value under a number; none where nothing stands there.
pub fn find(table: &Table, root: Number, path: &[u8]) -> Option<Number>
    ensures { Numbered (values table.now) (looked (nth (values table.now) root) (split 47 path.now)) result }
{
    path.split(|b| *b == b'/')
        .try_fold(root, |at, name| table.member(at, name))
}
