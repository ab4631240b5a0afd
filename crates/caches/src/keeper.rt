// A cache that forgets only when it is cleared, and does not keep what has no room.
ghost use Rattle.std.specs.Prelude.{◌≡◌, ◌+◌, ◌<◌, ◌≤◌, ◌&&◌, [], IfOk, IfSome, vec_len, vec_capacity, nat_le, nat_lt};
ghost use Rattle.std.specs.List.{slice_get};
ghost use Rattle.std.specs.Option.{option_map};
ghost use Rattle.caches.specs.declared.keys.Key.{Key};
ghost use Rattle.caches.specs.Entries.{with_key};
ghost use Rattle.caches.specs.Exact.{Looks, Keeps};
ghost use Rattle.caches.specs.Slots.{slot_entry, Fit, all_lens, places};
ghost use Rattle.caches.specs.Lines.{Sorted, Below, lines_with, numbers_with, Enlists};
ghost use Rattle.std.proofs.Common.{arith};
ghost use Rattle.std.proofs.lemmas.List.{length-map};
ghost use Rattle.caches.specs.Laws.{slots_short};

use crate::caches::{Cache, MOST_ANSWERS};
use crate::keeper_slots::{Indexed, Slot};
use crate::keys::Key;
use crate::offers::Offer;
use crate::questions::Answered;
use ordered::{insert, place};
use std::alloc::{AllocError, Global};
use values::Number;

// The most entries that a keeper holds, and the most answers of all entries.
const ROOM: usize = 128;

const ANSWERS: usize = 1024;

// The slots of the entries, oldest first; their answers, one entry's behind another's; and the index.
// They are Vecs that `new` makes at full size, since no later call may take memory, as a map's insert would.
// No Model: the contracts of its private methods name the fields.
#[derive(Drop)]
pub struct Keeper {
    slots: Vec<Slot>,
    answers: Vec<Answered>,
    index: Vec<Indexed>,
    ghost room: { (128 ≤ vec_capacity slots) × (1024 ≤ vec_capacity answers) × (128 ≤ vec_capacity index) },
    ghost few: { (vec_len slots ≤ 128) × (vec_len answers ≤ 1024) × (vec_len index ≡ vec_len slots) },
    ghost fit: { Fit slots.items (vec_len answers) },
    ghost filled: { all_lens slots.items ≡ vec_len answers },
    ghost sorted: { Sorted index.items },
    ghost below: { Below (vec_len slots) index.items },
    ghost linked: { (key : Key) → numbers_with key index.items ≡ places key 0 slots.items },
}

// Puts an entry into the index, behind the others of its key.
fn enlist(index: &mut Vec<Indexed>, key: Key, entry: u16)
    requires sorted { Sorted index.old.items }
    requires below { Below entry index.old.items }
    requires room { vec_len index.old < vec_capacity index.old }
    ensures enlists { Enlists key entry index.old.items index.new.items }
    ensures len { vec_len index.new ≡ vec_len index.old + 1 }
    ensures capacity { vec_capacity index.new ≡ vec_capacity index.old }
{
    let _ = insert(index, Indexed { key, entry });
}

impl Keeper {
    ghost use Rattle.caches.specs.Held.{keeper_held};

    pub fn new(heap: Global) -> Result<Keeper, AllocError>
        ensures { IfOk result (λ k. keeper_held k ≡ []) }
    {
        let slots = Vec::with_capacity(heap, ROOM)?;
        let answers = Vec::with_capacity(heap, ANSWERS)?;
        let index = Vec::with_capacity(heap, ROOM)?;
        Ok(Keeper {
            slots,
            answers,
            index,
        })
    }

    // Whether an entry of so many answers has room.
    fn has_room(&self, len: usize) -> bool
        ensures { result ≡ (nat_lt (vec_len self.now.slots) 128 && (nat_le len 64 && nat_le (vec_len self.now.answers + len) 1024)) }
    {
        self.slots.len() < ROOM && len <= MOST_ANSWERS && self.answers.len() + len <= ANSWERS
    }

    // The lines of a key.
    fn lines(&self, key: Key) -> &[Indexed]
        ensures { result.now ≡ lines_with key self.now.index.items }
    {
        let start = place(&self.index, &Indexed { key, entry: 0 });
        let end = place(
            &self.index,
            &Indexed {
                key,
                entry: u16::MAX,
            },
        );
        &self.index[start..end]
    }

    // The k-th entry that has the key.
    fn kth(&self, key: Key, k: u16) -> Option<&Slot>
        ensures entry { option_map (λ s. slot_entry self.now.answers.items s.now) result ≡ slice_get (with_key key (keeper_held self.now)) k }
        ensures fits { IfSome result (λ s. s.now.from + s.now.len ≤ vec_len self.now.answers) }
    {
        let line = self.lines(key).get(usize::from(k))?;
        Some(&self.slots[usize::from(line.entry)])
    }
}

impl Cache for Keeper {
    ghost use Rattle.caches.specs.Held.{keeper_held};

    ghost held = { keeper_held };

    ghost room = { 128 };

    ghost adds = { λ e s r t. Keeps e (keeper_held s) r (keeper_held t) };

    ghost takes = { λ key k s r t. Looks key k (keeper_held s) r (keeper_held t) };

    ghost small = { omega arith };

    ghost bounded = { λ s. omega (arith, length-map s.slots.items (slot_entry s.answers.items), s.few.0, s.slots.ok.0) };

    ghost short = { λ s. slots_short s.slots.items s.answers.items };

    #[tactic(auto, using(crate::proofs::Rows::lines_length, crate::proofs::Lists::filter_length))]
    fn count(&self, key: Key) -> u16 {
        self.lines(key).len() as u16
    }

    fn answer(&self, key: Key, k: u16, j: u16) -> Option<Answered> {
        let slot = self.kth(key, k)?;
        let answers = &self.answers[slot.from..slot.from + slot.len];
        answers.get(usize::from(j)).copied()
    }

    #[tactic(auto, using(crate::proofs::Lists::took_looked))]
    fn take(&mut self, key: Key, k: u16) -> Option<Number> {
        self.kth(key, k).map(|slot| slot.product)
    }

    fn add(&mut self, offer: Offer) -> bool {
        if !self.has_room(offer.answers.len()) {
            return false;
        }
        let slot = Slot {
            key: offer.key,
            product: offer.product,
            from: self.answers.len(),
            len: offer.answers.len(),
        };
        let entry = self.slots.len() as u16;
        let _ = self.answers.extend_from_slice(offer.answers);
        self.slots.push_reserved(slot);
        enlist(&mut self.index, offer.key, entry);
        true
    }

    fn clear(&mut self) {
        self.slots.clear();
        self.answers.clear();
        self.index.clear();
    }
}
