// A scanner gives the tokens of a model from the front.
ghost use Rattle.std.specs.Prelude.{◌≡◌, ◌≤◌, length};
ghost use Rattle.grammar.specs.Tokens.{tokens_of, count};
ghost use Rattle.scanner.specs.Views.{ahead, Sees, Peeks, Gives};

use crate::fronts::front_token;
use crate::runs::blanks;
use crate::scanner::Scanner;
use crate::tokens::{Next, NoToken};

impl<'a> Scanner<'a> {
    // All tokens of the model are still to come; there are no more of them than bytes.
    pub fn new(model: &'a [u8]) -> Scanner<'a>
        ensures all { ahead result ≡ tokens_of model.now }
        ensures few { count (ahead result) ≤ length model.now }
    {
        Scanner { model, at: 0 }
    }

    // What comes next, and where the scanner goes on: behind a token, and else where it stands.
    fn see(&self) -> (Next<'a>, usize)
        ensures { Sees self.now result.0.place result.0.token result.1 }
    {
        let place = self.at + blanks(&self.model[self.at..]);
        let (token, end) = match front_token(&self.model[place..]) {
            Ok(Some((token, len))) => (Ok(Some(token)), place + len),
            Ok(None) => (Ok(None), self.at),
            Err(NoToken) => (Err(NoToken), self.at),
        };
        (Next { place, token }, end)
    }

    // What comes next.
    pub fn peek(&self) -> Next<'a>
        ensures { Peeks (ahead self.now) result.place result.token }
    {
        let (next, _) = self.see();
        next
    }

    // Gives the next token and passes it over. Past the last, and where no token stands, the scanner stays.
    pub fn next(&mut self) -> Next<'a>
        ensures { Gives (ahead self.old) result.place result.token (ahead self.new) }
    {
        let (next, end) = self.see();
        self.at = end;
        next
    }
}
