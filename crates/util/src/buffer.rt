// Pieces of a text, one after the other, into the caller's buffer.
ghost use Rattle.std.specs.Prelude.{◌≡◌};
ghost use Rattle.util.specs.Buffer.{put_end, put_into};

// Copies a piece into the buffer's tail from `at` on, and returns where it ends. A piece that does not fit is not copied, and ends where it
// starts.
pub fn put(piece: &[u8], buffer: &mut [u8], at: usize) -> usize
    ensures value { result ≡ put_end buffer.old at piece.now }
    ensures buffer_after { buffer.new ≡ put_into buffer.old at piece.now }
{
    if buffer.len() < at || buffer.len() - at < piece.len() {
        return at;
    }
    let end = at + piece.len();
    buffer[at..end].copy_from_slice(piece);
    end
}
