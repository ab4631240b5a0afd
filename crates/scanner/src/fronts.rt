// The token that bytes begin with.
ghost use Rattle.scanner.specs.Views.{Fronts};

use crate::bytes::is_sign;
use crate::runs::{name_len, text_len};
use crate::tokens::{NoToken, Token};
use values::is_name_byte;

// The most bytes that a word may have.
const MAX_WORD: usize = 32;

// The token that bytes begin with, and how many bytes it has; there is none where there are no bytes.
pub fn front_token(bytes: &[u8]) -> Result<Option<(Token<'_>, usize)>, NoToken>
    ensures { Fronts bytes.now result }
{
    match bytes {
        [] => Ok(None),
        [b'"', rest @ ..] => {
            let n = text_len(rest)?;
            Ok(Some((Token::Text(&rest[..n]), n + 2)))
        }
        [b'=', b'=', ..] => Ok(Some((Token::Same, 2))),
        [b, ..] => {
            if is_name_byte(*b) {
                let n = name_len(bytes);
                if n > MAX_WORD {
                    return Err(NoToken);
                }
                Ok(Some((Token::Word(&bytes[..n]), n)))
            } else if is_sign(*b) {
                Ok(Some((Token::Sign(*b), 1)))
            } else {
                Err(NoToken)
            }
        }
    }
}
