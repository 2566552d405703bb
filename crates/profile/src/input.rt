// The input, read to its end or until the buffer is full.
ghost use Rattle.std.specs.Prelude.{IfOk};
ghost use Rattle.io.specs.Counts.{IsPrefixLen};

use std::io;
use std::io::Read;
use std::rt::Runtime;

// How many bytes came. A count, since io's `IsPrefixLen` says that it fits. A read tells how far it came, so the place is not counted by a
// `for`.
pub(crate) fn read_input(rt: &impl Runtime, buf: &mut [u8]) -> io::Result<usize>
    ensures { IfOk result (λ len. IsPrefixLen len buf.new) }
{
    let mut input = rt.reader();
    let mut len = 0;
    while len < buf.len() {
        match input.read(&mut buf[len..])? {
            0 => break,
            more => len += more,
        }
    }
    Ok(len)
}
