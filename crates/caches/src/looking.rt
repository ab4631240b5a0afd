// Looking into any cache, by what every cache promises.
ghost use Rattle.std.specs.Prelude.{◌≡◌};
ghost use Rattle.caches.specs.Entries.{product_at, Within};

use crate::caches::Cache;
use crate::keys::Key;
use values::Number;

// Takes the first entry that has the key, and gives its product.
#[tactic(auto, using(crate::proofs::Lists::took_product, crate::proofs::Lists::took_within))]
pub fn first_product<C: Cache>(cache: &mut C, key: Key) -> Option<Number>
    ensures product { result ≡ product_at key 0 (C.Cache.held cache.old) }
    ensures within { Within (C.Cache.held cache.new) (C.Cache.held cache.old) }
    ensures exactly { C.Cache.takes key 0 cache.old result cache.new }
{
    cache.take(key, 0)
}
