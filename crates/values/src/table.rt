// The calls of the value table.
ghost use Rattle.std.specs.Prelude.{◌≡◌, ◌<◌, max, true, false, [], ◌∷◌, length, take, Some, IfOk};
ghost use Rattle.std.proofs.Math.Option.{some};
ghost use Rattle.values.specs.Values.{Value, same_value, nth, child, and_then};
ghost use Rattle.values.specs.Limits.{height as value_height, proper as is_proper};
ghost use Rattle.values.specs.Table.{Enters, EntersText, EntersBinding, shown, content_value, known_content, spelt, under, Numbered};
ghost use Rattle.values.specs.Memory.{values};

use crate::nodes::Node;
use crate::parts::{
    Content, GREATEST_HEIGHT, LONGEST_TEXT, MAX_MEMBERS, MAX_TEXT, MAX_VALUES, MOST_MEMBERS,
    Member, Number, Unentered,
};
use crate::store::Table;
use std::alloc::{AllocError, Global};

impl Table {
    // A table that holds TRUE and FALSE, with all the memory that it will ever need.
    pub fn new(heap: Global) -> Result<Table, AllocError>
        ensures { IfOk result (λ t. values t ≡ Value.truth true ∷ Value.truth false ∷ []) }
    {
        let mut nodes = Vec::with_capacity(heap, MAX_VALUES)?;
        nodes.push_reserved(Node::Truth(true));
        nodes.push_reserved(Node::Truth(false));
        let bytes = Vec::with_capacity(heap, MAX_TEXT)?;
        let members = Vec::with_capacity(heap, MAX_MEMBERS)?;
        let mut index = Vec::with_capacity(heap, MAX_VALUES)?;
        index.push_reserved(1);
        index.push_reserved(0);
        Ok(Table {
            nodes,
            bytes,
            members,
            index,
        })
    }

    // How many values it holds.
    pub fn len(&self) -> usize
        ensures { result ≡ length (values self.now) }
    {
        self.nodes.len()
    }

    // The number of a truth value: always there.
    pub fn truth(&self, b: bool) -> Number
        ensures { nth (values self.now) result ≡ some (Value.truth b) }
    {
        if b { 0 } else { 1 }
    }

    // Whether two numbers of the table stand for the same value: exactly if they are equal. It is `==` by name, since its contract is the
    // theorem that equal numbers mean equal values.
    pub fn same(&self, a: Number, b: Number) -> bool
        ensures { (u v : Value) → nth (values self.now) a ≡ some u → nth (values self.now) b ≡ some v → result ≡ same_value u v }
    {
        a == b
    }

    // What stands under a number, or none.
    pub fn value(&self, n: Number) -> Option<Content<'_>>
        ensures is { shown (values self.now) result ≡ nth (values self.now) n }
        ensures known { known_content (values self.now) result ≡ true }
        ensures proper { (v : Value) → nth (values self.now) n ≡ some v → is_proper v ≡ true }
    {
        let content = match *self.nodes.get(n as usize)? {
            Node::Truth(b) => Content::Truth(b),
            Node::Text(s) => Content::Text(s.of(&self.bytes)),
            Node::Binding(s, _) => Content::Binding(s.of(&self.members)),
        };
        Some(content)
    }

    // The bytes of the text under a number; none where there is no text.
    pub fn text(&self, n: Number) -> &[u8]
        ensures { result.now ≡ spelt (under (values self.now) n) }
    {
        let Some(content) = self.value(n) else {
            return &[];
        };
        match content {
            Content::Text(text) => text,
            _ => &[],
        }
    }

    // The number of a binding's member.
    pub fn member(&self, n: Number, name: &[u8]) -> Option<Number>
        ensures { Numbered (values self.now) (and_then (nth (values self.now) n) (child name.now)) result }
    {
        match self.value(n)? {
            Content::Binding(members) => self.member_in(members, name),
            _ => None,
        }
    }

    // Enters a text: its number, or why it is not entered.
    pub fn enter_text(&mut self, text: &[u8]) -> Result<Number, Unentered>
        ensures { EntersText text.now (values self.old) result (values self.new) }
    {
        if text.len() > LONGEST_TEXT {
            return Err(Unentered::TooLong);
        }
        self.enter(Content::Text(text), 0)
    }

    // Enters a binding by its members: its number, or why it is not entered.
    pub fn enter_binding(&mut self, members: &[Member]) -> Result<Number, Unentered>
        ensures { EntersBinding members.now (values self.old) result (values self.new) }
    {
        if members.len() > MOST_MEMBERS {
            return Err(Unentered::TooMany);
        }
        if !self.are_fit(members) {
            return Err(Unentered::Unfit);
        }
        let height = self.height_over(members);
        if height > GREATEST_HEIGHT {
            return Err(Unentered::TooHigh);
        }
        self.enter(Content::Binding(members), height)
    }

    // Enters a content that keeps the rules, with its height.
    fn enter(&mut self, content: Content<'_>, height: u8) -> Result<Number, Unentered>
        requires known { known_content (values self.old) (Some content) ≡ true }
        requires right { is_proper (content_value (values self.old) content) ≡ true }
        requires height { height ≡ value_height (content_value (values self.old) content) }
        ensures { Enters (content_value (values self.old) content.entry) (values self.old) result (values self.new) }
    {
        match self.find(content) {
            Ok(number) => Ok(number),
            Err(place) if self.has_room(content) => Ok(self.push(place, content, height)),
            Err(_) => Err(Unentered::Full),
        }
    }

    // Takes the table back to its first `len` values; TRUE and FALSE stay in any case.
    pub fn truncate(&mut self, len: usize)
        ensures { values self.new ≡ take (max 2 len) (values self.old) }
    {
        let count = len.max(2);
        if count >= self.nodes.len() {
            return;
        }
        let (bytes, members) = self.ends(count);
        self.bytes.truncate(bytes);
        self.members.truncate(members);
        self.nodes.truncate(count);
        self.index.retain(|n| (*n as usize) < count);
    }
}
