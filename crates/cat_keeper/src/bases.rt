//! Bases among payloads.

ghost use Rattle.std.specs.Prelude.{◌≡◌, get_or};
ghost use Rattle.cat_keeper.specs.Bases as bases;

use cat_codes::bytes::Bytes;
use cat_frames::is_checkpoint;

/// The byte at a place, and 0 behind the last.
fn byte_at(bytes: &[u8], i: usize) -> u8
    ensures { result ≡ get_or bytes.now i 0 }
{
    if i < bytes.len() { bytes[i] } else { 0 }
}

/// The place of a base, by its bytes.
pub fn base_place(bytes: &[u8]) -> u32
    ensures { result ≡ bases.base_place bytes.now }
{
    u32::from_be_bytes([
        byte_at(bytes, 1),
        byte_at(bytes, 2),
        byte_at(bytes, 3),
        byte_at(bytes, 4),
    ])
}

/// How many payloads stand up to the last base, and it with them.
pub(crate) fn base_end(payloads: &[Bytes]) -> usize
    ensures { result ≡ bases.base_end payloads.now }
{
    let mut end = 0;
    for i in 0..payloads.len() {
        if is_checkpoint(payloads[i].as_slice()) {
            end = i + 1;
        }
    }
    end
}
