// The answers so far to a tool's fetches, in memory that the caller lends.
ghost use Rattle.std.specs.Prelude.{◌≡◌, take, drop};
ghost use Rattle.values.specs.Values.{nth};
ghost use Rattle.tools.specs.Calls.{meant, answers_of, told as told_of, heard, Splits};

// A stretch of the pool, wherever it lies; the value table's own (`values`) has 16-bit numbers.
#[derive(Clone, Copy, PartialEq, Eq, Debug)]
pub struct Span {
    pub start: usize,
    pub len: usize,
}

// The answers in their order. A text is a stretch of the pool, whose bytes are taken when a run's memory is made: a list of slices would take
// memory at each step.
#[derive(Clone, Copy)]
pub struct Answers<'a> {
    pub pool: &'a [u8],
    // Each answer: a text, or none where nothing was found.
    pub told: &'a [Option<Span>],
}

// The bytes of a stretch, as far as the pool has them.
fn stretch(pool: &[u8], span: Span) -> &[u8]
    ensures { result.now ≡ take span.len (drop span.start pool.now) }
{
    let start = span.start.min(pool.len());
    let len = span.len.min(pool.len() - start);
    &pool[start..start + len]
}

impl<'a> Answers<'a> {
    // What an answer says, its text taken from the pool.
    fn read(self, told: Option<Span>) -> Option<&'a [u8]>
        ensures { told_of result ≡ meant self.entry.pool.now told }
    {
        Some(stretch(self.pool, told?))
    }

    // The answer at a position, counted from 0, if there is one: a text, or none where nothing was found.
    pub fn get(self, position: usize) -> Option<Option<&'a [u8]>>
        ensures { heard result ≡ nth (answers_of self.entry) position }
    {
        let told = self.told.get(position)?;
        Some(self.read(*told))
    }

    // The first answer and those behind it, if there is one.
    pub(crate) fn split_first(self) -> Option<(Option<&'a [u8]>, Answers<'a>)>
        ensures { Splits (answers_of self.entry) result }
    {
        let (told, others) = self.told.split_first()?;
        let rest = Answers {
            pool: self.pool,
            told: others,
        };
        Some((self.read(*told), rest))
    }
}
