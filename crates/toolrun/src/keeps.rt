// Keeping the answers of a run.
ghost use Rattle.std.specs.Prelude.{◌≡◌, ◌+◌, ◌&&◌, [], IfOk, vec_len, nat_le, nat_lt};
ghost use Rattle.tools.specs.Calls.{answers_of, told};
ghost use Rattle.toolrun.specs.Kept.{answers as kept, Keeps};

use crate::faults::Fault;
use crate::store::ToolRun;
use std::alloc::{AllocError, Global};
use tools::{Answers, Span};

// The most answers, and the most bytes that they have in all.
pub const MAX_ANSWERS: usize = 16;

const MAX_POOL: usize = 4096;

impl ToolRun {
    // A run with no answers yet, and all the memory that it will ever need.
    pub fn new(heap: Global) -> Result<ToolRun, AllocError>
        ensures { IfOk result (λ t. kept t ≡ []) }
    {
        let pool = Vec::with_capacity(heap, MAX_POOL)?;
        let told = Vec::with_capacity(heap, MAX_ANSWERS)?;
        Ok(ToolRun { pool, told })
    }

    // Forgets all answers, for another run.
    pub fn restart(&mut self)
        ensures { kept self.new ≡ [] }
    {
        self.pool.clear();
        self.told.clear();
    }

    // The answers so far.
    pub fn answers(&self) -> Answers<'_>
        ensures { answers_of result ≡ kept self.now }
    {
        Answers {
            pool: &self.pool,
            told: &self.told,
        }
    }

    // Whether there is room for one answer more, of so many bytes.
    fn has_room(&self, bytes: usize) -> bool
        ensures { result ≡ (nat_lt (vec_len self.now.told) 16 && nat_le (vec_len self.now.pool + bytes) 4096) }
    {
        self.told.len() < MAX_ANSWERS && bytes <= MAX_POOL - self.pool.len()
    }

    // Keeps one answer more, if there is room: a text, or none where nothing was found.
    pub(crate) fn keep(&mut self, answer: Option<&[u8]>) -> Result<(), Fault>
        ensures { Keeps (kept self.old) (told answer.entry) result (kept self.new) }
    {
        let text = answer.unwrap_or(&[]);
        if !self.has_room(text.len()) {
            return Err(Fault::NoRoom);
        }
        let span = Span {
            start: self.pool.len(),
            len: text.len(),
        };
        let _ = self.pool.extend_from_slice(text);
        self.told.push_reserved(answer.and(Some(span)));
        Ok(())
    }
}
