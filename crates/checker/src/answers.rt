// Why a tree file is not shown.
ghost use Rattle.std.specs.Prelude.{◌≡◌};
ghost use Rattle.checker.specs.Numbers.{number as number_of};

use entering::Full;
use trees::Refused;

// A tree file is refused, or accepted and too large for the value table.
#[derive(Clone, Copy, PartialEq, Eq, Debug)]
pub enum Unshown {
    // Refused by the rules of tree files.
    Refused(Refused),
    // Accepted, but the value table has no room for all its names and values.
    Full,
}

impl Unshown {
    // The number of the refusal.
    pub fn number(self) -> u8
        ensures { result ≡ number_of self }
    {
        match self {
            Unshown::Refused(refused) => refused.refusal.number(),
            Unshown::Full => 31,
        }
    }
}

// What breaks the rules is not shown.
impl From<Refused> for Unshown {
    ghost use Rattle.checker.specs.declared.answers.Unshown.{Unshown};

    ghost from_gives = { λ refused unshown. unshown ≡ Unshown.Refused refused };

    fn from(refused: Refused) -> Self {
        Self::Refused(refused)
    }
}

// What the table has no room for is not shown.
impl From<Full> for Unshown {
    ghost use Rattle.checker.specs.declared.answers.Unshown.{Unshown};

    ghost from_gives = { λ _ unshown. unshown ≡ Unshown.Full };

    fn from(_full: Full) -> Self {
        Self::Full
    }
}
