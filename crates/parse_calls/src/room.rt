//! Numbers in the memory of a caller.
ghost use Rattle.std.specs.Prelude.{◌≡◌};
ghost use Rattle.parse_calls.specs.Room.{IsCopied, filled};

/// Copies numbers to `out`, as many as fit. `length` becomes how many there are. Returns the status.
pub(crate) fn give(status: u8, numbers: &[u32], out: &mut [u32], length: &mut usize) -> u8
    ensures status { result ≡ status }
    ensures copied { IsCopied numbers.now out.old out.new length.new }
{
    *length = numbers.len();
    fill(numbers, out);
    status
}

// Copies numbers, as many as fit.
fn fill(numbers: &[u32], out: &mut [u32])
    ensures { out.new ≡ filled numbers.now out.old }
{
    let count = numbers.len().min(out.len());
    out[..count].copy_from_slice(&numbers[..count]);
}
