// Two caches as one: what near holds, then what far holds.
ghost use Rattle.std.specs.Prelude.{◌≡◌, ◌+◌, ◌≤◌, ◌++◌, length};
ghost use Rattle.std.proofs.Common.{length-append, arith, ⊎_elim};
ghost use Rattle.caches.specs.Entries.{with_key, answers_at};
ghost use Rattle.caches.specs.Exact.{AddsBoth, TakesEither};
ghost use Rattle.caches.specs.Laws.{member_split};

use crate::beside::Beside;
use crate::caches::{Cache, MOST_ANSWERS};
use crate::keys::Key;
use crate::offers::Offer;
use crate::questions::{Answered, Answers};
use values::Number;

// The near cache is looked into first, and is offered what is taken from the far one.
#[derive(Drop)]
pub struct Pair<N: Cache, F: Cache> {
    near: N,
    far: F,
}

impl<N: Cache, F: Cache> Pair<N, F> {
    pub fn new(near: N, far: F) -> Pair<N, F>
        ensures near { result.near ≡ near }
        ensures far { result.far ≡ far }
    {
        Pair { near, far }
    }
}

// The answers of the k-th entry that has the key.
#[tactic(auto, using(crate::proofs::Copies::copied_none, crate::proofs::Copies::more_left, crate::proofs::Copies::copied_more, crate::proofs::Copies::copied_all))]
pub fn recall<C: Cache>(cache: &C, key: Key, k: u16) -> Answers
    ensures within { length result.items ≤ 64 }
    ensures recalled { result.items ≡ answers_at key k (C.Cache.held cache.now) }
{
    let mut answers = Answers::new();
    while answers.len() < MOST_ANSWERS {
        let Some(answered) = cache.answer(key, k, answers.len() as u16) else {
            return answers;
        };
        answers.push(answered);
    }
    answers
}

impl<N: Beside<F>, F: Cache> Cache for Pair<N, F> {
    ghost held = { λ p. N.Cache.held p.near ++ F.Cache.held p.far };

    ghost room = { N.Cache.room + F.Cache.room };

    ghost adds = { λ e s r t. AddsBoth N.Cache.adds F.Cache.adds e s.near s.far r t.near t.far };

    ghost takes = { λ key k s r t. TakesEither N.Cache.adds N.Cache.takes F.Cache.takes key k (length (with_key key (N.Cache.held s.near))) (F.Cache.held s.far) s.near s.far r t.near t.far };

    ghost small = { N.Beside.fits };

    ghost bounded = { λ s. omega (arith, length-append (N.Cache.held s.near) (F.Cache.held s.far), N.Cache.bounded s.near, F.Cache.bounded s.far) };

    ghost short = { λ s e m. ⊎_elim (N.Cache.short s.near e) (F.Cache.short s.far e) (member_split e (N.Cache.held s.near) (F.Cache.held s.far) m) };

    #[tactic(auto, using(crate::proofs::Lists::with_key_append, crate::proofs::Lists::filter_length))]
    fn count(&self, key: Key) -> u16 {
        self.near.count(key) + self.far.count(key)
    }

    #[tactic(auto, using(crate::proofs::Lists::at_left, crate::proofs::Lists::at_right))]
    fn answer(&self, key: Key, k: u16, j: u16) -> Option<Answered> {
        let n = self.near.count(key);
        if k < n {
            self.near.answer(key, k, j)
        } else {
            self.far.answer(key, k - n, j)
        }
    }

    // What is taken from far is offered to near. Its answers are read first, since a taking may move far's list.
    fn take(&mut self, key: Key, k: u16) -> Option<Number> {
        let n = self.near.count(key);
        if k < n {
            return self.near.take(key, k);
        }
        let answers = recall(&self.far, key, k - n);
        let product = self.far.take(key, k - n)?;
        let _ = self.near.add(Offer {
            key,
            product,
            answers: &answers,
        });
        Some(product)
    }

    #[tactic(auto, using(crate::proofs::Lists::added_both))]
    fn add(&mut self, offer: Offer) -> bool {
        let near = self.near.add(offer);
        let far = self.far.add(offer);
        near | far
    }

    fn clear(&mut self) {
        self.near.clear();
        self.far.clear();
    }
}
