// The input of the test programs.
ghost use Rattle.std.specs.Prelude.{◌≤◌, length, take};
ghost use Rattle.std.specs.Io.KnownBytes.{Consumes};

use std::io::Read;

// Reads to the end, until the space is full or until a read fails, and returns how many bytes of the space are read. No method of std's: those
// that read on say little of what they read before a failure, and the contract speaks of that.
pub fn read_full<R: Read>(from: &mut R, space: &mut [u8]) -> usize
    ensures count { result ≤ length space.new }
    ensures bytes { Consumes (R.remaining from.old) (R.remaining from.new) (take result space.new) }
{
    let mut n = 0;
    while n < space.len() {
        match from.read(&mut space[n..]) {
            Ok(0) => return n,
            Ok(more) => n += more,
            Err(_) => return n,
        }
    }
    n
}
