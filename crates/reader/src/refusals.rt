// Why a model is refused, and where.
ghost use Rattle.std.specs.Prelude.{◌≡◌};
ghost use Rattle.reader.specs.Refusals.{rule_number};

// The rule that a model breaks.
#[derive(Clone, Copy, PartialEq, Eq, Debug)]
pub enum Rule {
    // It has over 8,192 bytes.
    TooLong = 1,
    // No token stands there.
    NoToken = 2,
    // The grammar does not have the token there.
    NotInGrammar = 3,
    // The token passes a limit.
    PastLimit = 4,
    // The name is reserved, unfit, or taken.
    BadName = 5,
    // There is no such function, parameter or tool, or no `main`.
    Unknown = 6,
    // A call has another number of arguments than the function has parameters, or `main` has parameters.
    WrongCount = 7,
}

impl Rule {
    // The number by which a rule is told.
    pub fn number(self) -> u8
        ensures { result ≡ rule_number self }
    {
        self as u8
    }
}

// A refusal: the rule, and the place in the model. Tree files have their own of two fields: one for both would need a crate below both.
#[derive(Clone, Copy, PartialEq, Eq, Debug)]
pub struct Refusal {
    pub rule: Rule,
    pub place: usize,
}
