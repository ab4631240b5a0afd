// What takes the bytes of a listing.
ghost use Rattle.std.specs.Prelude.{ℕ, List};
ghost use Rattle.listing.specs.Puts.{Puts, Adds};

// There is no room for what is put.
#[derive(Clone, Copy)]
pub struct NoRoom;

// Takes bytes as far as it has room.
pub trait Sink {
    // How many bytes it still takes.
    ghost room: { Self → ℕ };

    // What it becomes by bytes that are put.
    ghost grows: { Self → List ℕ → Self → Type 0 };

    // Puts bytes behind those that were put before.
    fn put(&mut self, bytes: &[u8]) -> Result<(), NoRoom>
        ensures { Puts room grows self.old bytes.now result self.new };

    // What is put in turn adds up.
    ghost adds: { Adds room grows };
}
