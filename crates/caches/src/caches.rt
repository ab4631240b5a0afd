// What a cache is: it holds a list of entries, never longer than its room.
// An entry is what was made under a key, its product, with the questions asked on the way and what was found: its answers.
// Several entries may have one key: they are told apart by their answers.
// Offered is an entry that a cache may keep or not; taken is a product that is used again in place of being made.
ghost use Rattle.std.specs.Prelude.{◌≡◌, ℕ, ◌≤◌, Bool, List, [], length, Option};
ghost use Rattle.std.specs.List.{slice_get};
ghost use Rattle.caches.specs.declared.keys.Key.{Key};
ghost use Rattle.caches.specs.Entries.{Entry, offered, with_key, answers_at, Took, Added, AllShort};

use crate::keys::Key;
use crate::offers::Offer;
use crate::questions::Answered;
use values::Number;

// The most answers that an entry has.
pub const MOST_ANSWERS: usize = 64;

// A key and k are two arguments and not one struct: a pair asks far for the same key, at k less what near has.
pub trait Cache {
    // The entries held, and how many they are at most.
    ghost held: { Self → List Entry };

    ghost room: { ℕ };

    // Exactly what a kind of cache answers and holds after an offer, and after a taking.
    ghost adds: { Entry → Self → Bool → Self → Type 0 };

    ghost takes: { Key → ℕ → Self → Option ℕ → Self → Type 0 };

    // How many entries held have the key.
    fn count(&self, key: Key) -> u16
        ensures { result ≡ length (with_key key (held self.now)) };

    // Question j of the k-th of them with what was found, if there is one.
    fn answer(&self, key: Key, k: u16, j: u16) -> Option<Answered>
        ensures { result ≡ slice_get (answers_at key k (held self.now)) j };

    // Takes the k-th of them: gives its product. What is taken stays held.
    fn take(&mut self, key: Key, k: u16) -> Option<Number>
        ensures took { Took key k (held self.old) result (held self.new) }
        ensures exactly { takes key k self.old result self.new };

    // Offers a new entry: true where it is kept.
    fn add(&mut self, offer: Offer) -> bool
        ensures added { Added (offered offer.entry) (held self.old) result (held self.new) }
        ensures exactly { adds (offered offer.entry) self.old result self.new };

    // Forgets everything.
    fn clear(&mut self)
        ensures { held self.new ≡ [] };

    // The laws: a room is at most 65,535, no more is held than it takes, and each entry held has at most 64 answers.
    ghost small: { room ≤ 65535 };

    ghost bounded: { (s : Self) → length (held s) ≤ room };

    ghost short: { (s : Self) → AllShort (held s) };
}
