// The same look-up at each kind of cache, and at pairs. The generic one is `first_product`; each function here says
// what that promises at one kind, in words of that kind, which no contract over every cache can name.
ghost use Rattle.std.specs.Prelude.{◌≡◌, ◌++◌, None};
ghost use Rattle.caches.specs.Entries.{product_at};
ghost use Rattle.caches.specs.Exact.{Looks};
ghost use Rattle.caches.specs.Held.{keeper_held, ring_held};

use crate::caches::Cache;
use crate::keeper::Keeper;
use crate::keys::Key;
use crate::looking::first_product;
use crate::none::NoCache;
use crate::pair::Pair;
use crate::ring::Ring;
use values::Number;

pub fn first_in_none(none: &mut NoCache, key: Key) -> Option<Number>
    ensures { result ≡ None }
{
    first_product(none, key)
}

pub fn first_in_keeper(keeper: &mut Keeper, key: Key) -> Option<Number>
    ensures { Looks key 0 (keeper_held keeper.old) result (keeper_held keeper.new) }
{
    first_product(keeper, key)
}

pub fn first_in_ring(ring: &mut Ring, key: Key) -> Option<Number>
    ensures { Looks key 0 (ring_held ring.old) result (ring_held ring.new) }
{
    first_product(ring, key)
}

// A keeper behind a ring stays as it is.
pub fn first_in_two(cache: &mut Pair<Ring, Keeper>, key: Key) -> Option<Number>
    ensures product { result ≡ product_at key 0 (ring_held cache.old.near ++ keeper_held cache.old.far) }
    ensures far { keeper_held cache.new.far ≡ keeper_held cache.old.far }
{
    first_product(cache, key)
}

pub fn first_in_three(three: &mut Pair<Keeper, Pair<Ring, Ring>>, key: Key) -> Option<Number>
    ensures { result ≡ product_at key 0 (keeper_held three.old.near ++ (ring_held three.old.far.near ++ ring_held three.old.far.far)) }
{
    first_product(three, key)
}
