// Why a tool's run cannot go on.
ghost use Rattle.std.specs.Prelude.{◌≡◌};
ghost use Rattle.toolrun.specs.Kept.{fault_number};

use std::fmt;

// What ends a run that is neither a product nor a failure of the tool's own.
#[derive(Clone, Copy, PartialEq, Eq, Debug)]
pub enum Fault {
    // A path that is none: it has not 1 to 8 names.
    BadPath,
    // A 17th fetch, or answers of over 4,096 bytes.
    NoRoom,
    // There is no such tool, or no such command.
    Unknown,
}

impl Fault {
    // The number of the refusal with which the run ends; a call of what is not there has none.
    pub fn number(self) -> Option<u8>
        ensures { result ≡ fault_number self }
    {
        match self {
            Fault::BadPath => Some(27),
            Fault::NoRoom => Some(28),
            Fault::Unknown => None,
        }
    }
}

// The fault in plain words.
impl fmt::Display for Fault {
    ghost use Rattle.std.specs.Prelude.{Some};
    ghost use Rattle.toolrun.specs.Kept.{sentence};

    ghost output = { λ fault. Some (sentence fault) };

    fn fmt<W: fmt::Write>(&self, f: &mut fmt::Formatter<W>) -> fmt::Result {
        f.write_str(match self {
            Fault::BadPath => "a path that is fetched has 1 to 8 names",
            Fault::NoRoom => "a run has at most 16 fetches, and answers of 4,096 bytes in all",
            Fault::Unknown => "no such command of a tool: it has over 1,024 bytes",
        })
    }
}
