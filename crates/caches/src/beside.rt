// Which caches may stand beside which: their rooms add up to at most 65,535, so that entries can be counted in 16 bits.
ghost use Rattle.std.specs.Prelude.{◌+◌, ◌≤◌};

use crate::caches::Cache;

pub trait Beside<F: Cache>: Cache {
    ghost fits: { Self.Cache.room + F.Cache.room ≤ 65535 };
}

// A cache of at most 128 entries: no pair.
pub trait Single: Cache {
    ghost little: { Self.Cache.room ≤ 128 };
}
