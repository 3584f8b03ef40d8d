//! Arguments that both programs have.
ghost use Rattle.std.specs.Prelude.{◌≡◌, IfOk, map, string_bytes};
ghost use Rattle.lalrpop_grammar.specs.declared.repr.TerminalString.TheVariants.{Literal};
ghost use Rattle.std.specs.Str.{all_ascii_digits};
ghost use Rattle.program_answers.specs.Words.{limit_of, method_of};

use lalrpop_base::memory::OutOfMemory;
use lalrpop_base::repr::TerminalString;
use lalrpop_base::text::Text;
use lalrpop_construction::options::Method;
use std::alloc::Global;

/// The method that the value of the environment variable asks for: the canonical method if the
/// value is `disabled`, and else the lane method.
pub fn method_of(word: &str) -> Method
    ensures { result ≡ method_of word.now }
{
    if word == "disabled" {
        return Method::Canonical;
    }
    Method::Lane
}

/// The number that an argument gives in decimal digits alone. `None` if it has another byte or no
/// digit, or if the number does not fit into 64 bits.
pub fn limit_of(word: &str) -> Option<usize>
    ensures { result ≡ limit_of word.now }
{
    if !are_digits(word.as_bytes()) {
        return None;
    }
    word.parse::<usize>().ok()
}

// Whether each byte is a decimal digit.
fn are_digits(bytes: &[u8]) -> bool
    ensures { result ≡ all_ascii_digits bytes.now }
{
    for b in bytes {
        if !b.is_ascii_digit() {
            return false;
        }
    }
    true
}

/// Arguments as literals. `OutOfMemory` if an allocation fails.
pub fn tokens_of(alloc: Global, words: &[String]) -> Result<Vec<TerminalString>, OutOfMemory>
    ensures { IfOk result (λ tokens. tokens.items ≡ map Literal (map string_bytes words.now)) }
{
    let mut tokens = Vec::new(alloc);
    for word in words {
        tokens.push(TerminalString::Literal(Text::new(alloc, word.as_str())?))?;
    }
    Ok(tokens)
}
