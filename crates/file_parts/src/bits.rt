//! The smallest cells that hold all numbers of an array.
ghost use Rattle.std.specs.Prelude.{◌≡◌, nat_lt};
ghost use Rattle.std.specs.List.{list_all};
ghost use Rattle.file_parts.specs.Bits.{bits_text};

/// How many bits the smallest cells have that hold all numbers: 8, 16 or 32.
pub fn bits_of(numbers: &[u32]) -> &'static str
    ensures { result.now ≡ bits_text numbers.now }
{
    if are_below(numbers, 256) {
        return "8";
    }
    if are_below(numbers, 65_536) {
        return "16";
    }
    "32"
}

// Whether all numbers are below a limit.
fn are_below(numbers: &[u32], limit: u32) -> bool
    ensures { result ≡ list_all (λ n. nat_lt n limit) numbers.now }
{
    numbers.iter().all(|number| *number < limit)
}
