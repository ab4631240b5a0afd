// What is asked of the members of a binding before it is entered.
ghost use Rattle.std.specs.Prelude.{◌≡◌, ◌&&◌, length, nat_lt};
ghost use Rattle.values.specs.Values.{Value};
ghost use Rattle.values.specs.Limits.{height as value_height};
ghost use Rattle.values.specs.Table.{under, spelt, is_text as text_value, known, well_named, next_after, members_of};
ghost use Rattle.values.specs.Checks.{fit_member};
ghost use Rattle.values.specs.Memory.{values};

use crate::names::is_name;
use crate::parts::{Content, Member, Number};
use crate::store::Table;

impl Table {
    // Whether a text stands under the number.
    fn is_text(&self, n: Number) -> bool
        ensures { result ≡ (nat_lt n (length (values self.now)) && text_value (under (values self.now) n)) }
    {
        let Some(content) = self.value(n) else {
            return false;
        };
        matches!(content, Content::Text(_))
    }

    // Whether the member's numbers are in the table, and its name is fit.
    fn is_fit(&self, m: Member) -> bool
        ensures { result ≡ fit_member (values self.now) m }
    {
        self.is_text(m.name) && self.value(m.value).is_some() && is_name(self.text(m.name))
    }

    // Whether the member's name stands before that of the first of the rest, if there is one.
    fn ascends(&self, m: Member, rest: &[Member]) -> bool
        ensures { result ≡ next_after (values self.now) (spelt (under (values self.now) m.name)) rest.now }
    {
        match rest {
            [] => true,
            [next, ..] => self.text(m.name) < self.text(next.name),
        }
    }

    // Whether all members are fit, and their names ascend.
    pub(crate) fn are_fit(&self, members: &[Member]) -> bool
        ensures { result ≡ (known (values self.now) members.now && well_named (values self.now) members.now) }
    {
        match members {
            [] => true,
            [m, rest @ ..] => self.is_fit(*m) && self.ascends(*m, rest) && self.are_fit(rest),
        }
    }

    // The height of a binding of the members.
    pub(crate) fn height_over(&self, members: &[Member]) -> u8
        ensures { result ≡ value_height (Value.binding (members_of (values self.now) members.now)) }
    {
        let heights = members.iter().map(|m| self.height(m.value));
        heights.max().unwrap_or(0) + 1
    }
}
