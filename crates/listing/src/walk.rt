// The walk over a value: its lines, in order.
ghost use Rattle.std.specs.Prelude.{◌≡◌, ◌+◌, ◌<◌, ◌≤◌, true, [], ◌∷◌, map, length, Some};
ghost use Rattle.values.specs.Memory.{values};
ghost use Rattle.values.specs.Limits.{height, heights};
ghost use Rattle.values.specs.Table.{under, members_of, known, content_value, known_content};
ghost use Rattle.trees.specs.Lines.{line, lines, lines_of};
ghost use Rattle.trees.specs.Files.{joined, written, listing};
ghost use Rattle.listing.specs.Puts.{Puts};
ghost use Rattle.listing.specs.Pieces.{spellings, steps, held, deeper, leaf_of};

use crate::pieces::put_end;
use crate::sink::{NoRoom, Sink};
use arrayvec::ArrayVec;
use values::{Content, GREATEST_HEIGHT, Member, Number, Table};

// The most names on a path: as many as a binding is high.
const MAX_DEPTH: usize = GREATEST_HEIGHT as usize;

// Where a walk over a value stands: the numbers of the names on the way there.
#[derive(Drop)]
struct Walk<'t> {
    table: &'t Table,
    path: ArrayVec<Number, MAX_DEPTH>,
}

// The members that a content has: only a binding has any.
fn members_in(content: Content<'_>) -> &[Member]
    ensures { result.now ≡ held content.entry }
{
    match content {
        Content::Binding(members) => members,
        _ => &[],
    }
}

impl Walk<'_> {
    // Puts names, a `/` before each.
    fn put_steps<S: Sink>(&self, names: &[Number], out: &mut S) -> Result<(), NoRoom>
        ensures { Puts S.room S.grows out.old (steps (spellings (values self.now.table.now) names.now)) result out.new }
    {
        for name in names {
            out.put(b"/")?;
            out.put(self.table.text(*name))?;
        }
        Ok(())
    }

    // Puts the path: its names, a `/` between them.
    fn put_path<S: Sink>(&self, out: &mut S) -> Result<(), NoRoom>
        ensures { Puts S.room S.grows out.old (joined 47 (spellings (values self.now.table.now) self.now.path.items)) result out.new }
    {
        match self.path.as_slice() {
            [] => Ok(()),
            [first, rest @ ..] => {
                out.put(self.table.text(*first))?;
                self.put_steps(rest, out)
            }
        }
    }

    // Puts the line of a value that has no members.
    fn put_line<S: Sink>(&self, content: Content, out: &mut S) -> Result<(), NoRoom>
        ensures { Puts S.room S.grows out.old (written (line (spellings (values self.now.table.now) self.now.path.items) (leaf_of content.entry) ∷ [])) result out.new }
    {
        self.put_path(out)?;
        put_end(content, out)
    }

    // Puts the lines of the value under a number, to which the path leads.
    #[cycle(put_members_put_value)]
    fn put_value<S: Sink>(&mut self, number: Number, out: &mut S) -> Result<(), NoRoom>
        requires known { number < length (values self.old.table.now) }
        requires levels { length self.old.path.items + height (under (values self.old.table.now) number) ≤ 16 }
        ensures puts { Puts S.room S.grows out.old (written (map (deeper (spellings (values self.old.table.now) self.old.path.items)) (lines (under (values self.old.table.now) number)))) result out.new }
        ensures stays { self.new ≡ self.old }
    {
        let Some(content) = self.table.value(number) else {
            unreachable()
        };
        let members = members_in(content);
        if members.is_empty() {
            self.put_line(content, out)
        } else {
            self.put_members(members, out)
        }
    }

    // Puts the lines of members; the path leads to the binding that has them.
    #[cycle(put_members_put_value)]
    fn put_members<S: Sink>(&mut self, members: &[Member], out: &mut S) -> Result<(), NoRoom>
        requires known { known (values self.old.table.now) members.now ≡ true }
        requires levels { length self.old.path.items + heights (members_of (values self.old.table.now) members.now) < 16 }
        ensures puts { Puts S.room S.grows out.old (written (map (deeper (spellings (values self.old.table.now) self.old.path.items)) (lines_of (members_of (values self.old.table.now) members.now)))) result out.new }
        ensures stays { self.new ≡ self.old }
    {
        for member in members {
            self.path.push(member.name);
            let put = self.put_value(member.value, out);
            self.path.pop();
            put?;
        }
        Ok(())
    }
}

// Puts the listing of what was read from the table: a binding in its lines, any other value in one line with the path `.`.
pub fn put_listing<S: Sink>(table: &Table, content: Content, out: &mut S) -> Result<(), NoRoom>
    requires known { known_content (values table.now) (Some content) ≡ true }
    requires levels { height (content_value (values table.now) content) ≤ 16 }
    ensures { Puts S.room S.grows out.old (listing (content_value (values table.now) content.entry)) result out.new }
{
    match content {
        Content::Binding(members) => {
            let mut walk = Walk {
                table,
                path: ArrayVec::new(),
            };
            walk.put_members(members, out)
        }
        _ => {
            out.put(b".")?;
            put_end(content, out)
        }
    }
}
