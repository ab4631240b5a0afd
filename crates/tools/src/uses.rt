// Asking any toolbox that replies in lent memory, and such toolboxes of each kind. Each function below `next_path` says at one kind of toolbox what that one
// says at all of them: its contract shows what the tools of that kind are, which no generic contract can.
ghost use Rattle.std.specs.Prelude.{◌≡◌, codes};
ghost use Rattle.std.specs.Option.{option_map};
ghost use Rattle.tools.specs.Tools.{asked};
ghost use Rattle.tools.specs.Plans.{cat_only, first_only, beside as beside_of};
ghost use Rattle.tools.specs.Calls.{answers_of, called, path_of};

use crate::answers::Answers;
use crate::beside::SideBySide;
use crate::choosing::First;
use crate::joining::Cat;
use crate::replies::{Reply, Space};
use crate::toolbox::{Call, Toolbox};

// The path that the tool that is called fetches next, if it fetches one.
pub fn next_path<'o, T: Toolbox>(
    tools: &T,
    call: Call<'_>,
    answers: Answers<'_>,
    space: &'o mut Space,
) -> Option<&'o [u8]>
    ensures { option_map (λ x. x.now) result ≡ path_of (called (T.Toolbox.tools tools.now) call.entry (answers_of answers.entry)) }
{
    match tools.reply(call, answers, space)? {
        Reply::Fetch(path) => Some(path),
        Reply::Product(_) => None,
        Reply::Failure(_) => None,
    }
}

// What `cat` fetches next.
pub fn next_of_cat<'o>(
    command: &[u8],
    answers: Answers<'_>,
    space: &'o mut Space,
) -> Option<&'o [u8]>
    ensures { option_map (λ x. x.now) result ≡ path_of (asked cat_only (codes "cat") command.now (answers_of answers.entry)) }
{
    let call = Call {
        name: b"cat",
        command,
    };
    next_path(&Cat, call, answers, space)
}

// What `first` fetches next.
pub fn next_of_first<'o>(
    command: &[u8],
    answers: Answers<'_>,
    space: &'o mut Space,
) -> Option<&'o [u8]>
    ensures { option_map (λ x. x.now) result ≡ path_of (asked first_only (codes "first") command.now (answers_of answers.entry)) }
{
    let call = Call {
        name: b"first",
        command,
    };
    next_path(&First, call, answers, space)
}

// What a tool fetches next out of a toolbox that has `cat` and `first`.
pub fn next_of_both<'o>(
    call: Call<'_>,
    answers: Answers<'_>,
    space: &'o mut Space,
) -> Option<&'o [u8]>
    ensures { option_map (λ x. x.now) result ≡ path_of (called (beside_of cat_only first_only) call.entry (answers_of answers.entry)) }
{
    let both = SideBySide {
        left: Cat,
        right: First,
    };
    next_path(&both, call, answers, space)
}

// What a tool fetches next out of toolboxes side by side, each of two side by side.
pub fn next_of_nested<'o>(
    call: Call<'_>,
    answers: Answers<'_>,
    space: &'o mut Space,
) -> Option<&'o [u8]>
    ensures { option_map (λ x. x.now) result ≡ path_of (called (beside_of (beside_of cat_only first_only) (beside_of first_only cat_only)) call.entry (answers_of answers.entry)) }
{
    let nested = SideBySide {
        left: SideBySide {
            left: Cat,
            right: First,
        },
        right: SideBySide {
            left: First,
            right: Cat,
        },
    };
    next_path(&nested, call, answers, space)
}
