// Paths: names one below the other.
ghost use Rattle.std.specs.Prelude.{◌≡◌, ◌-◌, ◌≤◌, length, drop, replicate};

use values::Number;

// The most names that a path has.
const MOST_NAMES: usize = 24;

// At most 24 names, one below the other: the first `len` of the array. Unused places hold 0, so paths are equal where their names are.
// Not an ArrayVec, since a path is copied.
#[derive(Clone, Copy, PartialEq, Eq)]
pub struct Path {
    names: [Number; MOST_NAMES],
    len: usize,
    ghost few: { len ≤ 24 },
    ghost long: { length names ≡ 24 },
    ghost unused: { drop len names ≡ replicate (24 - len) 0 },
}

impl Path {
    ghost use Rattle.std.specs.Prelude.{◌<◌, MatchOption};
    ghost use Rattle.caches.specs.Paths.{path_names};

    // The path of these names, unless they are over 24.
    pub fn new(names: &[Number]) -> Option<Path>
        ensures { MatchOption result (24 < length names.now) (λ p. path_names p ≡ names.now) }
    {
        if names.len() > MOST_NAMES {
            return None;
        }
        let mut all = [0; MOST_NAMES];
        all[..names.len()].copy_from_slice(names);
        Some(Path {
            names: all,
            len: names.len(),
        })
    }

    // The names of the path, from the root down.
    pub fn names(&self) -> &[Number]
        ensures { result.now ≡ path_names self.now }
    {
        &self.names[..self.len]
    }
}
