//! Lines of a text by offsets.
ghost use Rattle.std.specs.Prelude.{◌≡◌, ◌==◌, ◌≤◌, filter, length};
ghost use Rattle.grammar_diagnostics.specs.Places.{is_line_end, line_at};

/// The number of the line, from 1, in which an offset in bytes is.
pub fn line_at(text: &str, offset: usize) -> usize
    ensures { result ≡ line_at text.now offset }
{
    let bytes = text.as_bytes();
    if offset >= bytes.len() {
        return line_ends(bytes) + 1;
    }
    line_ends(&bytes[..offset]) + 1
}

// The number of line ends in a part of a text.
fn line_ends(bytes: &[u8]) -> usize
    ensures count { result ≡ length (filter is_line_end bytes.now) }
    ensures few { result ≤ length bytes.now }
{
    let mut count = 0;
    for byte in bytes {
        if *byte == b'\n' {
            count += 1;
        }
    }
    count
}
