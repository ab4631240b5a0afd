// Paths: names parted by `/`.
ghost use Rattle.std.specs.Prelude.{◌≡◌, length};
ghost use Rattle.trees.specs.Files.{split, all_fit};
ghost use Rattle.trees.specs.Contents.{answer};
ghost use Rattle.trees.specs.Paths.{shared};

use std::cmp::Ordering;
use values::is_name;

// Whether every name of a path is one. `is_name` stands in a closure: the check does not take another crate's function by its name.
pub fn is_path(path: &[u8]) -> bool
    ensures { result ≡ all_fit (split 47 path.now) }
{
    path.split(|b| *b == b'/').all(|name| is_name(name))
}

// How many names a path has.
pub fn count_names(path: &[u8]) -> usize
    ensures { result ≡ length (split 47 path.now) }
{
    path.split(|b| *b == b'/').count()
}

// How many names a path shares with the one before it, or none if it may not stand behind it.
pub fn shared_names(before: &[u8], path: &[u8]) -> Option<usize>
    ensures { result ≡ answer (shared (split 47 before.now) (split 47 path.now)) }
{
    let old_names = before.split(|b| *b == b'/');
    let new_names = path.split(|b| *b == b'/');
    for (count, (old, new)) in old_names.zip(new_names).enumerate() {
        match old.cmp(new) {
            Ordering::Less => return Some(count),
            Ordering::Equal => {}
            Ordering::Greater => return None,
        }
    }
    None
}
