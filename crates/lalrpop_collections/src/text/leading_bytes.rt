//! The first eight bytes of a text as one number.
ghost use Rattle.std.specs.Prelude.{◌≡◌, slice_index};
ghost use Rattle.lalrpop_collections.specs.lists.LeadingBytes.{AreBytes, leading_number};

// The byte at a place, or 0 if there is none.
fn byte_at(bytes: &[u8], place: usize) -> u8
    ensures byte { result ≡ slice_index bytes.now place }
{
    if place < bytes.len() {
        return bytes[place];
    }
    0
}

/// The first eight bytes as one number, in which the first byte is the most significant one. Each
/// missing byte counts as 0.
pub(crate) fn leading_number(bytes: &[u8]) -> u64
    ensures number { result ≡ leading_number bytes.now }
    ensures bytes { AreBytes bytes.now }
{
    u64::from_be_bytes([
        byte_at(bytes, 0),
        byte_at(bytes, 1),
        byte_at(bytes, 2),
        byte_at(bytes, 3),
        byte_at(bytes, 4),
        byte_at(bytes, 5),
        byte_at(bytes, 6),
        byte_at(bytes, 7),
    ])
}
