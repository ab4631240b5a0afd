// Putting bytes: only counting them, or writing them.
ghost use Rattle.std.specs.Prelude.{◌≡◌, ◌+◌, ◌≤◌, length};
ghost use Rattle.listing.specs.Outputs.{count_room, CountGrows, fill_room, FillGrows, stored};
ghost use Rattle.listing.specs.Laws.{counts_add, fills_add};

use crate::output::{Count, Fill};
use crate::sink::{NoRoom, Sink};

// Writes bytes at a place of a buffer that has room for them. Most pieces are a byte or a pair, and those are stored: copying costs more.
fn write_at(buffer: &mut [u8], at: usize, bytes: &[u8])
    requires { at + length bytes.now ≤ length buffer.old }
    ensures { buffer.new ≡ stored buffer.old at bytes.now }
{
    match bytes {
        [byte] => buffer[at] = *byte,
        [mark, byte] => {
            buffer[at] = *mark;
            buffer[at + 1] = *byte;
        }
        _ => buffer[at..at + bytes.len()].copy_from_slice(bytes),
    }
}

impl Sink for Count {
    ghost room = { count_room };

    ghost grows = { CountGrows };

    ghost adds = { counts_add };

    fn put(&mut self, bytes: &[u8]) -> Result<(), NoRoom> {
        let Some(room) = self.room.checked_sub(bytes.len()) else {
            return Err(NoRoom);
        };
        self.room = room;
        Ok(())
    }
}

impl Sink for Fill<'_> {
    ghost room = { fill_room };

    ghost grows = { FillGrows };

    ghost adds = { fills_add };

    fn put(&mut self, bytes: &[u8]) -> Result<(), NoRoom> {
        let at = self.at;
        if bytes.len() > self.buffer.len() - at {
            return Err(NoRoom);
        }
        let end = at + bytes.len();
        write_at(self.buffer, at, bytes);
        self.at = end;
        Ok(())
    }
}
