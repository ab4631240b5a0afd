// How far blanks, a word and a quoted text go.
ghost use Rattle.std.specs.Prelude.{◌≡◌, ◌<◌, ◌≤◌, length, IfOk};
ghost use Rattle.std.specs.Result.{result_ok};
ghost use Rattle.values.specs.Limits.{name_byte};
ghost use Rattle.grammar.specs.Tokens.{blank, front, closed};
ghost use Rattle.scanner.specs.Views.{GoesOn, text_length};

use crate::bytes::{escaped_byte, is_blank, is_printable};
use crate::tokens::NoToken;
use values::is_name_byte;

// How many blanks stand in front.
pub fn blanks(bytes: &[u8]) -> usize
    ensures { (result ≡ front blank bytes.now) × (result ≤ length bytes.now) }
{
    bytes.iter().take_while(|b| is_blank(**b)).count()
}

// How many bytes of a name stand in front, as the grammar counts them; `entering` has the same chain for the name that they are.
pub fn name_len(bytes: &[u8]) -> usize
    ensures { (result ≡ front name_byte bytes.now) × (result ≤ length bytes.now) }
{
    bytes.iter().take_while(|b| is_name_byte(**b)).count()
}

// How a quoted text goes on behind its opening quote: with so many bytes that stand for one, or with its closing quote.
fn go_on(bytes: &[u8]) -> Result<Option<usize>, NoToken>
    ensures { GoesOn bytes.now result }
{
    match bytes {
        [] => Err(NoToken),
        [b'"', ..] => Ok(None),
        [b'\\', b, ..] => match escaped_byte(*b as char) {
            Some(_) => Ok(Some(2)),
            None => Err(NoToken),
        },
        [b'\\'] => Err(NoToken),
        [b, ..] => {
            if is_printable(*b) {
                Ok(Some(1))
            } else {
                Err(NoToken)
            }
        }
    }
}

// How many bytes stand behind an opening quote up to the closing one.
pub fn text_len(bytes: &[u8]) -> Result<usize, NoToken>
    ensures counted { result_ok result ≡ text_length (closed bytes.now) }
    ensures within { IfOk result (λ i. i < length bytes.now) }
{
    // It counts by hand: a step takes one byte or two and may be refused, so that an iterator for it would have to be written.
    let mut i = 0;
    while let Some(n) = go_on(&bytes[i..])? {
        i += n;
    }
    Ok(i)
}
