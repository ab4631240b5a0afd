// The table in memory: all of it is taken when it is made.
ghost use Rattle.std.specs.Prelude.{◌≡◌, ◌≤◌, true, vec_len, vec_capacity};
ghost use Rattle.values.specs.Nodes.{sound_nodes};
ghost use Rattle.values.specs.Index.{sound_index};

use crate::nodes::Node;
use crate::parts::{Member, Number};

// Nodes stand in the order of their numbers, and refer to the pools of bytes and members.
// The index has the numbers of all nodes in the order of their keys.
// They are pools and numbers, since no call after `new` may allocate.
// It has no `impl Model`, under which `self` in a contract would be its values alone: the private methods speak of nodes, pools
// and index, and the public ones of its values, by `values`.
#[derive(Drop)]
pub struct Table {
    pub(crate) nodes: Vec<Node>,
    pub(crate) bytes: Vec<u8>,
    pub(crate) members: Vec<Member>,
    pub(crate) index: Vec<Number>,
    ghost room: { (2048 ≤ vec_capacity nodes) × (32768 ≤ vec_capacity bytes) × (4096 ≤ vec_capacity members) × (2048 ≤ vec_capacity index) },
    ghost few: { (vec_len nodes ≤ 2048) × (vec_len bytes ≤ 32768) × (vec_len members ≤ 4096) },
    ghost paired: { vec_len index ≡ vec_len nodes },
    ghost sound: { sound_nodes bytes.items members.items nodes.items ≡ true },
    ghost indexed: { sound_index bytes.items members.items nodes.items index.items ≡ true },
}
