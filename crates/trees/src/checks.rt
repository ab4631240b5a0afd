// Checking a tree file.
ghost use Rattle.std.specs.Prelude.{◌≡◌, true, OnOk};
ghost use Rattle.values.specs.Limits.{proper as is_proper};
ghost use Rattle.trees.specs.Files.{read_tree, listing};
ghost use Rattle.trees.specs.Laws.{LinesAscend, LinesAgree};
ghost use Rattle.trees.specs.Accepted.{Judges, value_read};

use crate::answers::{Refusal, Refused};
use crate::parts::cut;
use crate::progress::Progress;

// The most bytes that a tree file may have.
pub const MAX_FILE: usize = 32768;

// Checks any bytes as a tree file: accepted, or refused by the first line that breaks a rule, with the place of its first byte.
// An accepted file is, byte for byte, the listing of the value read from it, and that value is one by the rules.
#[tactic(auto, using(crate::proofs::Taking::lines_ascend, crate::proofs::Accepting::lines_agree))]
pub fn check(bytes: &[u8]) -> Result<(), Refused>
    ensures judged { Judges (read_tree bytes.now) result }
    ensures listed { OnOk result (listing (value_read bytes.now) ≡ bytes.now) }
    ensures proper { OnOk result (is_proper (value_read bytes.now) ≡ true) }
    ensures ascend { LinesAscend }
    ensures agree { LinesAgree }
{
    if bytes.len() > MAX_FILE {
        return Err(Refused {
            refusal: Refusal::TooLong,
            place: 0,
        });
    }
    let mut progress = Progress::new();
    let mut left = bytes;
    loop {
        let place = bytes.len() - left.len();
        let lines = cut(left, b'\n');
        let Some(rest) = lines.rest else {
            if lines.first.is_empty() {
                return Ok(());
            }
            return Err(Refused {
                refusal: Refusal::Malformed,
                place,
            });
        };
        progress
            .read(lines.first)
            .map_err(|refusal| Refused { refusal, place })?;
        left = rest;
    }
}
