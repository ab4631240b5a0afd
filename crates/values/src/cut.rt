// Where the pools end for the first values of a table.
ghost use Rattle.std.specs.Prelude.{◌≡◌, ◌≤◌, take, vec_len};
ghost use Rattle.values.specs.Table.{spent, text_bytes, own_members};
ghost use Rattle.values.specs.Memory.{values};

use crate::nodes::Node;
use crate::store::Table;

impl Table {
    // Where the bytes and the members of the first values end: there the first text and the first binding behind them begin.
    pub(crate) fn ends(&self, count: usize) -> (usize, usize)
        requires { count ≤ vec_len self.now.nodes }
        ensures { result ≡ (spent text_bytes (take count (values self.now)), spent own_members (take count (values self.now))) }
    {
        let ends = (self.bytes.len(), self.members.len());
        let behind = self.nodes[count..].iter().rev();
        behind.fold(ends, |(bytes, members), node| match *node {
            Node::Truth(_) => (bytes, members),
            Node::Text(s) => (s.start as usize, members),
            Node::Binding(s, _) => (bytes, s.start as usize),
        })
    }
}
