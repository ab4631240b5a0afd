// What a ring keeps of each entry.
ghost use Rattle.std.specs.Prelude.{◌≤◌, length};

use crate::keys::Key;
use crate::offers::Offer;
use crate::questions::Answers;
use values::Number;

// An entry with its answers.
#[derive(Drop)]
pub struct RingSlot {
    pub(crate) key: Key,
    pub(crate) product: Number,
    pub(crate) answers: Answers,
    ghost few: { length answers.items ≤ 64 },
}

impl RingSlot {
    ghost use Rattle.std.specs.Prelude.{◌≡◌, []};
    ghost use Rattle.caches.specs.Entries.{entry, offered};
    ghost use Rattle.caches.specs.Rings.{ring_entry};

    // A slot whose answers are still to come.
    pub(crate) fn without_answers(key: Key, product: Number) -> RingSlot
        ensures { ring_entry result ≡ entry key product [] }
    {
        RingSlot {
            key,
            product,
            answers: Answers::new(),
        }
    }

    // Keeps what is offered in place of what it kept.
    pub(crate) fn refill(&mut self, offer: Offer)
        requires { length offer.answers.now ≤ 64 }
        ensures { ring_entry self.new ≡ offered offer.entry }
    {
        self.key = offer.key;
        self.product = offer.product;
        self.answers.truncate(offer.answers.len());
        let (over, behind) = offer.answers.split_at(self.answers.len());
        self.answers.as_mut_slice().copy_from_slice(over);
        let _ = self.answers.try_extend_from_slice(behind);
    }
}
