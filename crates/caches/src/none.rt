// The cache `none`: it holds nothing.
ghost use Rattle.std.specs.Prelude.{[]};
ghost use Rattle.caches.specs.Exact.{Looks, Declines};
ghost use Rattle.std.proofs.Common.{arith};

use crate::caches::Cache;
use crate::keys::Key;
use crate::offers::Offer;
use crate::questions::Answered;
use values::Number;

#[derive(Clone, Copy)]
pub struct NoCache;

impl Cache for NoCache {
    ghost held = { λ _. [] };

    ghost room = { 0 };

    ghost adds = { λ e s r t. Declines e [] r [] };

    ghost takes = { λ key k s r t. Looks key k [] r [] };

    ghost small = { omega arith };

    ghost bounded = { λ s. omega arith };

    ghost short = { λ s e m. absurd m };

    fn count(&self, key: Key) -> u16 {
        0
    }

    fn answer(&self, key: Key, k: u16, j: u16) -> Option<Answered> {
        None
    }

    fn take(&mut self, key: Key, k: u16) -> Option<Number> {
        None
    }

    fn add(&mut self, offer: Offer) -> bool {
        false
    }

    fn clear(&mut self) {}
}
