// Why a tree file is refused.
ghost use Rattle.std.specs.Prelude.{◌≡◌};
ghost use Rattle.trees.specs.Numbers.{number as number_of};

use crate::escapes::Malformed;
use std::fmt;

// The rule that a tree file breaks, by its number.
#[derive(Clone, Copy, PartialEq, Eq, Debug)]
pub enum Refusal {
    // The file has over 32,768 bytes.
    TooLong = 1,
    // A line is no line, or a name is no name.
    Malformed = 8,
    // A line does not stand behind the one before it, or goes on below an earlier path.
    Disordered = 9,
    // A path, a text or the members of a binding pass their limit.
    LimitPassed = 10,
}

impl Refusal {
    // The number under which the rule is known.
    pub fn number(self) -> u8
        ensures { result ≡ number_of self }
    {
        self as u8
    }
}

// The rule in plain words.
impl fmt::Display for Refusal {
    ghost use Rattle.std.specs.Prelude.{Some};
    ghost use Rattle.trees.specs.Numbers.{sentence};

    ghost output = { λ refusal. Some (sentence refusal) };

    fn fmt<W: fmt::Write>(&self, f: &mut fmt::Formatter<W>) -> fmt::Result {
        f.write_str(match self {
            Refusal::TooLong => "the file is longer than 32,768 bytes",
            Refusal::Malformed => "this is no line of a tree file, or a name in it is no name",
            Refusal::Disordered =>
                "this line does not stand behind the one before it, or goes on below an earlier path",
            Refusal::LimitPassed => "a path, a text or the members of a binding pass their limit",
        })
    }
}

// A line that is none is refused as malformed.
impl From<Malformed> for Refusal {
    ghost use Rattle.trees.specs.declared.answers.Refusal.{Refusal};

    ghost from_gives = { λ _ refusal. refusal ≡ Refusal.Malformed };

    fn from(_malformed: Malformed) -> Self {
        Self::Malformed
    }
}

// A refusal with its place: the first byte of the line, or 0 for the file. The reader of models has its own of two fields: one for both
// would need a crate below both.
#[derive(Clone, Copy, PartialEq, Eq, Debug)]
pub struct Refused {
    pub refusal: Refusal,
    pub place: usize,
}
