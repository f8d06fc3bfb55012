// Bytes written one after the other.
ghost use Rattle.std.specs.Prelude.{◌≡◌, ◌+◌, ◌≤◌, length};
ghost use Rattle.rewriting.specs.Writing.{put_at, fields_at, Room};

use sorting::stretches::{Piece, stretch, wide};

// Puts bytes in from `at` on, and answers where they end.
pub fn put(bytes: &[u8], buffer: &mut [u8], at: usize) -> usize
    requires { at + length bytes.now ≤ length buffer.old }
    ensures { (result ≡ at + length bytes.now) × (buffer.new ≡ put_at buffer.old at bytes.now) }
{
    // (`copy_from_slice` needs memmove, and the archive has memcpy and memset alone)
    for i in 0..bytes.len() {
        let byte = bytes[i];
        buffer[at + i] = byte;
    }
    at + bytes.len()
}

// Puts in the fields of a text at the first n places, from `at` on, and answers where they end.
pub fn put_fields(text: &[u8], places: &[u16], n: usize, buffer: &mut [u8], at: usize) -> usize
    requires { Room text.now places.now n buffer.old at }
    ensures value { result ≡ at + length (fields_at text.now places.now n) }
    ensures buffer_after { buffer.new ≡ put_at buffer.old at (fields_at text.now places.now n) }
{
    let mut end = at;
    for &place in &places[..n] {
        let field = stretch(text, Piece::Field, wide(place));
        end = put(field, buffer, end);
    }
    end
}
