// A cache that keeps every entry of at most 64 answers, and holds the 16 newest.
ghost use Rattle.std.specs.Prelude.{◌≡◌, ◌≤◌, [], ◌∷◌, ◌++◌, length, IfOk};
ghost use Rattle.std.specs.VecDeque.{deque_items, deque_len, deque_capacity};
ghost use Rattle.std.specs.List.{slice_get};
ghost use Rattle.std.specs.Option.{option_map};
ghost use Rattle.caches.specs.Entries.{with_key, offered};
ghost use Rattle.caches.specs.Exact.{Looks, Turns, newest};
ghost use Rattle.caches.specs.Rings.{ring_entry};
ghost use Rattle.std.proofs.Common.{arith};
ghost use Rattle.std.proofs.lemmas.List.{length-map};
ghost use Rattle.caches.specs.Laws.{ring_short};

use crate::caches::{Cache, MOST_ANSWERS};
use crate::keys::Key;
use crate::offers::Offer;
use crate::questions::Answered;
use crate::ring_slots::RingSlot;
use std::alloc::{AllocError, Global};
use std::collections::VecDeque;
use values::Number;

// The most entries that a ring holds.
const ROOM: usize = 16;

// The slots of the entries, oldest first. `new` takes the memory of all 16, and no later call takes any.
// No Model: the contracts of its private methods name the fields.
#[derive(Drop)]
pub struct Ring {
    slots: VecDeque<RingSlot>,
    ghost room: { 16 ≤ deque_capacity slots },
    ghost few: { deque_len slots ≤ 16 },
}

impl Ring {
    ghost use Rattle.caches.specs.Held.{ring_held};

    pub fn new(heap: Global) -> Result<Ring, AllocError>
        ensures { IfOk result (λ k. ring_held k ≡ []) }
    {
        let slots = VecDeque::with_capacity(heap, ROOM)?;
        Ok(Ring { slots })
    }

    // The k-th entry that has the key.
    fn kth(&self, key: Key, k: u16) -> Option<&RingSlot>
        ensures { option_map (λ s. ring_entry s.now) result ≡ slice_get (with_key key (ring_held self.now)) k }
    {
        self.slots
            .iter()
            .filter(|slot| slot.key == key)
            .nth(usize::from(k))
    }

    // Puts an entry behind the others. Of 16 the oldest goes, and its slot is filled anew.
    fn put(&mut self, offer: Offer)
        requires { length offer.answers.now ≤ 64 }
        ensures { ring_held self.new ≡ newest 16 (ring_held self.old ++ offered offer.entry ∷ []) }
    {
        if self.slots.len() < ROOM {
            let slot = RingSlot::without_answers(offer.key, offer.product);
            self.slots.push_back_reserved(slot);
        } else {
            self.slots.rotate_left(1);
        }
        if let Some(slot) = self.slots.back_mut() {
            slot.refill(offer);
        }
    }
}

impl Cache for Ring {
    ghost use Rattle.caches.specs.Held.{ring_held};

    ghost held = { ring_held };

    ghost room = { 16 };

    ghost adds = { λ e s r t. Turns e (ring_held s) r (ring_held t) };

    ghost takes = { λ key k s r t. Looks key k (ring_held s) r (ring_held t) };

    ghost small = { omega arith };

    ghost bounded = { λ s. omega (arith, length-map (deque_items s.slots) ring_entry, s.few, s.slots.ok.0) };

    ghost short = { λ s. ring_short (deque_items s.slots) };

    fn count(&self, key: Key) -> u16 {
        self.slots.iter().filter(|slot| slot.key == key).count() as u16
    }

    fn answer(&self, key: Key, k: u16, j: u16) -> Option<Answered> {
        self.kth(key, k)?.answers.get(usize::from(j)).copied()
    }

    #[tactic(auto, using(crate::proofs::Lists::took_looked))]
    fn take(&mut self, key: Key, k: u16) -> Option<Number> {
        self.kth(key, k).map(|slot| slot.product)
    }

    #[tactic(auto, using(crate::proofs::Rings::ring_added))]
    fn add(&mut self, offer: Offer) -> bool {
        if offer.answers.len() > MOST_ANSWERS {
            return false;
        }
        self.put(offer);
        true
    }

    fn clear(&mut self) {
        self.slots.clear();
    }
}
