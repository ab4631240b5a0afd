// Looking for a content in the index.
ghost use Rattle.std.specs.Prelude.{◌≡◌, vec_len};
ghost use Rattle.values.specs.Index.{content_key, side, Finds};
ghost use Rattle.values.specs.Memory.{key_of};

use crate::parts::{Content, Number};
use crate::store::Table;
use std::cmp::Ordering;

impl Table {
    // How what stands under a number compares with a content; a number that is not in the table comes first.
    fn compare(&self, n: Number, sought: Content<'_>) -> Ordering
        ensures { result ≡ side (key_of self.now) (vec_len self.now.nodes) (content_key sought.entry) n }
    {
        match self.value(n) {
            Some(content) => content.cmp(&sought),
            None => Ordering::Less,
        }
    }

    // The number that has the content, or the place in the index where such a number would stand. It halves by hand: the library's search
    // goes on where the content is found, which costs over twice as much where values recur.
    pub(crate) fn find(&self, sought: Content<'_>) -> Result<Number, usize>
        ensures { Finds (key_of self.now) (vec_len self.now.nodes) self.now.index.items (content_key sought.entry) result }
    {
        let mut low = 0;
        let mut high = self.index.len();
        while low < high {
            let middle = low + (high - low) / 2;
            let number = self.index[middle];
            match self.compare(number, sought) {
                Ordering::Less => low = middle + 1,
                Ordering::Equal => return Ok(number),
                Ordering::Greater => high = middle,
            }
        }
        Err(low)
    }
}
