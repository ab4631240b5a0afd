// Single caches stand beside each other, and beside pairs of them.
ghost use Rattle.std.proofs.Common.{arith};

use crate::beside::{Beside, Single};
use crate::caches::Cache;
use crate::keeper::Keeper;
use crate::none::NoCache;
use crate::pair::Pair;
use crate::ring::Ring;

impl Single for Keeper {
    ghost little = { omega arith };
}

impl Single for Ring {
    ghost little = { omega arith };
}

impl Single for NoCache {
    ghost little = { omega arith };
}

impl<N: Single, F: Single> Beside<F> for N {
    ghost fits = { omega (arith, N.Single.little, F.Single.little) };
}

impl<N: Single, M: Single, F: Single> Beside<Pair<M, F>> for N {
    ghost fits = { omega (arith, N.Single.little, M.Single.little, F.Single.little) };
}

impl<N: Single, M: Single, F: Single> Beside<F> for Pair<N, M> {
    ghost fits = { omega (arith, N.Single.little, M.Single.little, F.Single.little) };
}

impl<A: Single, B: Single, C: Single, D: Single> Beside<Pair<C, D>> for Pair<A, B> {
    ghost fits = { omega (arith, A.Single.little, B.Single.little, C.Single.little, D.Single.little) };
}
