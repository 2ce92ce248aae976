//! Lists in their files.

ghost use Rattle.std.specs.Prelude.{◌≤◌, length, IfOk};

use printing::read_full;
use std::rt::Files;
use std::{fs, io};

/// Reads a list from its file, as far as the buffer has room, and gives back what was read: nothing where the file
/// cannot be opened, or its name is no text, which this prints. What a file holds has no word in a contract.
pub fn read_list<'a>(
    rt: &(impl Files + Print),
    name: &[u8],
    buf: &'a mut [u8],
) -> io::Result<&'a [u8]>
    ensures { IfOk result (λ s. length s.now ≤ length buf.old) }
{
    let opened = str::from_utf8(name)
        .ok()
        .and_then(|path| fs::open(rt, path).ok());
    match opened {
        Some(mut file) => read_full(&mut file, buf),
        None => {
            rt.write_all(b"cannot be opened: ")?;
            rt.write_all(name)?;
            rt.write_all(b"\n")?;
            Ok(&[])
        }
    }
}
