// What listing answers where it writes nothing.
ghost use Rattle.std.specs.Prelude.{◌≡◌};
ghost use Rattle.listing.specs.Lists.{number as number_of};
ghost use Rattle.listing.specs.declared.answers.Unlisted.TheVariants.{ShortBuffer};

use crate::sink::NoRoom;

// Why a value is not listed.
#[derive(Clone, Copy, PartialEq, Eq, Debug)]
pub enum Unlisted {
    // No value stands under the number.
    UnknownNumber,
    // The buffer is shorter than the listing.
    ShortBuffer,
}

impl Unlisted {
    // The number under which the refusal is known; a mistake of the caller's has none.
    pub fn number(self) -> Option<u8>
        ensures { result ≡ number_of self }
    {
        match self {
            Unlisted::UnknownNumber => None,
            Unlisted::ShortBuffer => Some(32),
        }
    }
}

impl From<NoRoom> for Unlisted {
    ghost from_gives = { λ _ e. e ≡ ShortBuffer };

    fn from(_: NoRoom) -> Unlisted {
        Unlisted::ShortBuffer
    }
}
