// Reading what stands under a number.
ghost use Rattle.std.specs.Prelude.{◌≡◌, ◌≤◌, true};
ghost use Rattle.values.specs.Values.{member as member_of, same_name};
ghost use Rattle.values.specs.Limits.{height as value_height};
ghost use Rattle.values.specs.Table.{under, spelt, known, members_of, Numbered};
ghost use Rattle.values.specs.Memory.{values};

use crate::nodes::Node;
use crate::parts::{Member, Number};
use crate::store::Table;

impl Table {
    // The height of the value under a number; 0 where there is none.
    pub(crate) fn height(&self, n: Number) -> u8
        ensures is { result ≡ value_height (under (values self.now) n) }
        ensures low { result ≤ 16 }
    {
        let Some(node) = self.nodes.get(n as usize) else {
            return 0;
        };
        match *node {
            Node::Binding(_, height) => height,
            _ => 0,
        }
    }

    // Whether a member has the name.
    fn is_named(&self, m: &Member, name: &[u8]) -> bool
        ensures { result ≡ same_name name.now (spelt (under (values self.now) m.now.name)) }
    {
        name == self.text(m.name)
    }

    // The number of the first of the members that has the name.
    pub(crate) fn member_in(&self, members: &[Member], name: &[u8]) -> Option<Number>
        requires { known (values self.now) members.now ≡ true }
        ensures { Numbered (values self.now) (member_of name.now (members_of (values self.now) members.now)) result }
    {
        members
            .iter()
            .find(|m| self.is_named(m, name))
            .map(|m| m.value)
    }
}
