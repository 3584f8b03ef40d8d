//! The arguments that the words of a call stand for.
ghost use Rattle.std.specs.Prelude.{◌≡◌, IfOk, map, string_bytes};
ghost use Rattle.lr1_calls.specs.Calls.{AreArguments, arguments};

use grammar_text::symbols::pieces;
use lalrpop_base::memory::OutOfMemory;
use std::alloc::Global;
use std::str::from_utf8;

/// The arguments that words stand for. `OutOfMemory` if an allocation fails.
pub(crate) fn arguments_of(alloc: Global, words: &[u8]) -> Result<Vec<String>, OutOfMemory>
    ensures { IfOk result (λ all. AreArguments words.now (map string_bytes all.items)) }
{
    match from_utf8(words) {
        Ok(text) => arguments(alloc, text),
        Err(_) => Ok(Vec::new(alloc)),
    }
}

// The arguments of a command line: a name in the place of that of a file, and the words of a text,
// which bytes 0 separate.
fn arguments(alloc: Global, text: &str) -> Result<Vec<String>, OutOfMemory>
    ensures { IfOk result (λ all. map string_bytes all.items ≡ arguments text.now) }
{
    let parts = pieces(alloc, text, '\0')?;
    let mut all = Vec::new(alloc);
    all.push(String::from_str(alloc, "grammar")?)?;
    for part in &parts {
        all.push(String::from_str(alloc, part)?)?;
    }
    Ok(all)
}
