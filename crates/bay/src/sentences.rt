// Telling refusals in plain words.
use checker::Unshown;
use std::io;
use std::io::Write;
use trees::Refused;

// Tells why a tree file is refused, and where.
pub(crate) fn tell_refused(rt: &HostRuntime, refused: Refused) -> io::Result<()> {
    let number = refused.refusal.number();
    let place = refused.place;
    let refusal = refused.refusal;
    println!(rt; "refused {number} at {place}: {refusal}")
}

// Tells that an accepted tree finds no room.
pub(crate) fn tell_full(rt: &HostRuntime) -> io::Result<()> {
    let number = Unshown::Full.number();
    println!(rt;
        "refused {number}: the value table has no room for all names and values of the tree"
    )
}
