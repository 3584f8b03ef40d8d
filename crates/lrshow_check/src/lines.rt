//! Texts of several lines, as a terminal can show them.
ghost use Rattle.std.specs.Prelude.{◌≡◌, IfOk, string_bytes};
ghost use Rattle.table_pictures.specs.Escape.{pictured_lines};

use lalrpop_base::memory::OutOfMemory;
use std::alloc::Global;
use table_pictures::escape::push_visible_lines;

/// A text with each control character in its lines shown by its picture. `OutOfMemory` if an
/// allocation fails.
pub fn visible_lines(alloc: Global, text: &str) -> Result<String, OutOfMemory>
    ensures { IfOk result (λ shown. string_bytes shown ≡ pictured_lines text.now) }
{
    let mut shown = String::new(alloc);
    push_visible_lines(&mut shown, text)?;
    Ok(shown)
}
