// Reading files. Their dates are never looked at.
use std::fs::File;
use std::io;
use std::io::Read;
use trees::MAX_FILE;

// One byte more than a tree file may have: what is longer is refused all the same.
const MOST: u64 = MAX_FILE as u64 + 1;

// The bytes of a file, or as many of them as tell that it is too long.
pub(crate) fn read_file(rt: &HostRuntime, name: &[u8]) -> io::Result<Vec<u8>> {
    let Ok(path) = std::str::from_utf8(name) else {
        return Err(io::Error::from(io::ErrorKind::InvalidInput));
    };
    let mut bytes = Vec::new(rt.alloc());
    File::open(rt, path)?.take(MOST).read_to_end(&mut bytes)?;
    Ok(bytes)
}
