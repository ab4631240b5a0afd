// One line behind the others: its order and its limits.
ghost use Rattle.std.specs.Prelude.{◌≡◌, ℕ, ◌+◌, ◌-◌, ◌<◌, ◌≤◌, Bool, List, ◌∷◌, ◌++◌, length, take, replicate, IfSome, slice_index};
ghost use Rattle.trees.specs.Files.{split};
ghost use Rattle.trees.specs.Contents.{answer};
ghost use Rattle.trees.specs.Raw.{raw_leaf, raw_line};
ghost use Rattle.trees.specs.Progress.{leaf_height, leaf_small, in_limits};
ghost use Rattle.trees.specs.Following.{placed, Follows, Takes, Reads};
ghost use Rattle.values.specs.Values.{Members, nil};

use crate::answers::Refusal;
use crate::escapes::text_len;
use crate::lines::{RawLeaf, RawLine, read_line};
use crate::paths::{count_names, shared_names};
use crate::progress::Progress;
use values::{GREATEST_HEIGHT, LONGEST_TEXT, MOST_MEMBERS};

// What a leaf adds to the height of its path.
fn height(leaf: RawLeaf<'_>) -> usize
    ensures height { result ≡ leaf_height (raw_leaf leaf.entry) }
    ensures low { result ≤ 1 }
{
    match leaf {
        RawLeaf::Empty => 1,
        RawLeaf::Text(_) | RawLeaf::Truth(_) => 0,
    }
}

// Whether a leaf's text is within its limit.
fn is_small(leaf: RawLeaf<'_>) -> bool
    ensures { result ≡ leaf_small (raw_leaf leaf.entry) }
{
    match leaf {
        RawLeaf::Text(content) => text_len(content).unwrap_or(0) <= LONGEST_TEXT,
        RawLeaf::Truth(_) | RawLeaf::Empty => true,
    }
}

// Whether a path of so many names, its leaf, and one member more beside so many are within their limits.
fn within_limits(names: usize, leaf: RawLeaf<'_>, count: u8) -> bool
    requires { names ≤ 16 }
    ensures { result ≡ in_limits names (raw_leaf leaf.entry) count }
{
    names + height(leaf) <= GREATEST_HEIGHT as usize
        && is_small(leaf)
        && (count as usize) < MOST_MEMBERS
}

// The members read so far do not follow from what is kept, so no model gives them, and clauses take them as `ms`.
impl<'a> Progress<'a> {
    // Nothing read yet.
    pub fn new() -> Self
        ensures { Follows nil result }
    {
        Progress {
            last: None,
            counts: [0; GREATEST_HEIGHT as usize],
        }
    }

    // How many names a path shares with the last one, or none if it may not stand behind it.
    fn place(&self, path: &[u8]) -> Option<usize>
        ensures place { result ≡ answer (placed self.now.last (split 47 path.now)) }
        ensures within { IfSome result (λ d. d < length (split 47 path.now)) }
    {
        match self.last {
            None => Some(0),
            Some(last) => shared_names(last, path),
        }
    }

    // One member more where the paths part, and one in each binding below.
    fn count_member(&mut self, shared: usize, names: usize)
        requires parted { shared < names }
        requires few { names ≤ 16 }
        requires room { slice_index self.old.counts shared < 64 }
        ensures counts { take names self.new.counts ≡ take shared self.old.counts ++ (slice_index self.old.counts shared + 1) ∷ replicate (names - (shared + 1)) 1 }
        ensures last { self.new.last ≡ self.old.last }
    {
        self.counts[shared] += 1;
        self.counts[shared + 1..names].fill(1);
    }

    // Takes up a line behind the others, or says which rule it breaks.
    fn take_line(&mut self, line: RawLine<'a>) -> Result<(), Refusal>
        ensures { (ms : Members) → Follows ms self.old → Takes (raw_line line.entry) ms result self.new }
    {
        let shared = self.place(line.path).ok_or(Refusal::Disordered)?;
        let names = count_names(line.path);
        if names > GREATEST_HEIGHT as usize
            || !within_limits(names, line.leaf, self.counts[shared])
        {
            return Err(Refusal::LimitPassed);
        }
        self.count_member(shared, names);
        self.last = Some(line.path);
        Ok(())
    }

    // Reads a line behind the others, or says which rule it breaks.
    pub fn read(&mut self, bytes: &'a [u8]) -> Result<(), Refusal>
        ensures { (ms : Members) → Follows ms self.old → Reads bytes.now ms result self.new }
    {
        let line = read_line(bytes)?;
        self.take_line(line)
    }
}
