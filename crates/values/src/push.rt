// Room for a value more, and appending one.
ghost use Rattle.std.specs.Prelude.{◌≡◌, ◌+◌, ◌≤◌, true, [], ◌∷◌, ◌++◌, length, vec_len, vec_capacity, Some};
ghost use Rattle.values.specs.Limits.{height as value_height, proper};
ghost use Rattle.values.specs.Table.{fits, content_value, known_content};
ghost use Rattle.values.specs.Contents.{own_bytes, own_members, node_of};
ghost use Rattle.values.specs.Index.{content_key, Gap};
ghost use Rattle.values.specs.Memory.{values, key_of};

use crate::nodes::{Node, Span};
use crate::parts::{Content, MAX_MEMBERS, MAX_TEXT, MAX_VALUES, Member, Number};
use crate::store::Table;

// How many bytes and members a content has of its own.
fn sizes(content: Content<'_>) -> (usize, usize)
    ensures { result ≡ (length (own_bytes content.entry), length (own_members content.entry)) }
{
    match content {
        Content::Truth(_) => (0, 0),
        Content::Text(text) => (text.len(), 0),
        Content::Binding(members) => (0, members.len()),
    }
}

// Appends items to a pool that has the memory for them.
fn append<T: Copy>(pool: &mut Vec<T>, items: &[T]) -> Span
    requires few { vec_len pool.old + length items.now ≤ 32768 }
    requires room { vec_len pool.old + length items.now ≤ vec_capacity pool.old }
    ensures start { result.start ≡ vec_len pool.old }
    ensures len { result.len ≡ length items.now }
    ensures items { pool.new.items ≡ pool.old.items ++ items.now }
    ensures capacity { vec_capacity pool.old ≤ vec_capacity pool.new }
{
    let span = Span {
        start: pool.len() as u16,
        len: items.len() as u16,
    };
    let _ = pool.extend_from_slice(items);
    span
}

// Appends what a content has of its own to the pools, which have the memory for it: the node of its value.
fn store(content: Content<'_>, height: u8, bytes: &mut Vec<u8>, members: &mut Vec<Member>) -> Node
    requires bytes { vec_len bytes.old + length (own_bytes content) ≤ 32768 }
    requires members { vec_len members.old + length (own_members content) ≤ 4096 }
    requires room_for_bytes { 32768 ≤ vec_capacity bytes.old }
    requires room_for_members { 4096 ≤ vec_capacity members.old }
    ensures node { result ≡ node_of content.entry height (vec_len bytes.old) (vec_len members.old) }
    ensures bytes { bytes.new.items ≡ bytes.old.items ++ own_bytes content.entry }
    ensures members { members.new.items ≡ members.old.items ++ own_members content.entry }
    ensures room_for_bytes { 32768 ≤ vec_capacity bytes.new }
    ensures room_for_members { 4096 ≤ vec_capacity members.new }
{
    match content {
        Content::Truth(b) => Node::Truth(b),
        Content::Text(text) => Node::Text(append(bytes, text)),
        Content::Binding(list) => Node::Binding(append(members, list), height),
    }
}

impl Table {
    // Whether there is room for a value more, of that content.
    pub(crate) fn has_room(&self, content: Content<'_>) -> bool
        ensures { result ≡ fits (content_value (values self.now) content.entry) (values self.now) }
    {
        let (bytes, members) = sizes(content);
        self.nodes.len() < MAX_VALUES
            && bytes <= MAX_TEXT - self.bytes.len()
            && members <= MAX_MEMBERS - self.members.len()
    }

    // Appends a value that there is room for, and puts its number into the index. The memory for both is there.
    pub(crate) fn push(&mut self, place: usize, content: Content<'_>, height: u8) -> Number
        requires room { fits (content_value (values self.old) content) (values self.old) ≡ true }
        requires known { known_content (values self.old) (Some content) ≡ true }
        requires right { proper (content_value (values self.old) content) ≡ true }
        requires height { height ≡ value_height (content_value (values self.old) content) }
        requires gap { Gap (key_of self.old) self.old.index.items (content_key content) place }
        ensures number { result ≡ length (values self.old) }
        ensures after { values self.new ≡ values self.old ++ content_value (values self.old) content.entry ∷ [] }
    {
        let number = self.nodes.len() as Number;
        let node = store(content, height, &mut self.bytes, &mut self.members);
        self.nodes.push_reserved(node);
        let _ = self.index.insert(place, number);
        number
    }
}
