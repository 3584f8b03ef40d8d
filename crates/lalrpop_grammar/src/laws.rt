//! Laws of the types of grammars. The contract of each function is the law. Only the last function
//! does something: it returns the constant of which its law speaks.
ghost use Rattle.std.specs.Prelude.{◌≡◌};
ghost use Rattle.lalrpop_grammar.specs.grammars.Orders.{TerminalsCompare, SymbolsCompare, TokensCompare, ProductionsCompare};

use crate::lookahead::token::Token;

/// The orders that are derived from the declarations of types.
pub fn orders()
    ensures terminals { TerminalsCompare }
    ensures symbols { SymbolsCompare }
    ensures tokens { TokensCompare }
    ensures productions { ProductionsCompare }
{}

/// The deprecated constant of tokens, which is the end of the input.
#[allow(deprecated)]
pub fn deprecated_end() -> Token
    ensures { result ≡ Token.Eof }
{
    Token::EOF
}
