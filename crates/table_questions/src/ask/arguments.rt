//! Arguments of questions: methods, options, symbols and tokens. Arguments are numbered from 1.
ghost use Rattle.std.specs.Prelude.{IfOk, IsTrue};
ghost use Rattle.lalrpop_base.specs.Words.{HasKnownTerminals, IsKnown};

use case_files::question::{Question, QuestionError};
use grammar_text::symbols::{symbol_of, symbols_of, unquoted};
use lalrpop_base::lookahead::token::Token;
use lalrpop_base::lookahead::token_set::TokenSet;
use lalrpop_base::repr::terminals::TerminalSet;
use lalrpop_base::repr::{Symbol, Symbols, TerminalString};
use lalrpop_base::text::Text;
use lalrpop_tables::build::{Method, Options};
use std::alloc::Global;

/// The method that the argument with a number names.
pub fn method_at(question: &Question<'_>, number: usize) -> Result<Method, QuestionError> {
    match question.argument(number)? {
        "lane" => Ok(Method::Lane),
        "canonical" => Ok(Method::Canonical),
        _ => Err(QuestionError::Argument(number)),
    }
}

/// The options that the arguments from a number on name. Any other argument is an error.
pub fn options_from(
    question: &Question<'_>,
    number: usize,
    method: Method,
) -> Result<Options, QuestionError> {
    let mut options = Options {
        method,
        ..Options::default()
    };
    for (place, word) in question.from(number).iter().enumerate() {
        if !set_option(&mut options, word) {
            return Err(QuestionError::Argument(number.saturating_add(place)));
        }
    }
    Ok(options)
}

/// The options that the arguments from a number on name. Other arguments are passed over.
pub fn options_among(question: &Question<'_>, number: usize, method: Method) -> Options {
    let mut options = Options {
        method,
        ..Options::default()
    };
    for word in question.from(number) {
        set_option(&mut options, word);
    }
    options
}

/// Whether an argument names an option.
pub fn is_option(word: &str) -> bool {
    let mut options = Options::default();
    set_option(&mut options, word)
}

// Sets the option that an argument names, and returns whether it names one.
fn set_option(options: &mut Options, word: &str) -> bool {
    if let Some(digits) = word.strip_prefix("max_copies=") {
        return set_number(&mut options.max_copies, digits);
    }
    if let Some(digits) = word.strip_prefix("stop_after=") {
        return set_number(&mut options.stop_after, digits);
    }
    word == "collapsed" || word == "count"
}

// Sets the number that an argument gives, and returns whether it is a number.
fn set_number(place: &mut usize, digits: &str) -> bool {
    match digits.parse::<usize>() {
        Ok(number) => {
            *place = number;
            true
        }
        Err(_) => false,
    }
}

/// The symbols that words name. It is an error if a word is no symbol, or if a terminal is not in
/// the set. `number` is that of the first word, for the error.
pub fn known_symbols(
    alloc: Global,
    words: &[&str],
    terminals: &TerminalSet,
    number: usize,
) -> Result<Symbols, QuestionError>
    ensures { IfOk result (HasKnownTerminals terminals.now) }
{
    let Some(symbols) = symbols_of(alloc, words)? else {
        return Err(QuestionError::Argument(number));
    };
    if !have_known_terminals(symbols.as_slice(), terminals) {
        return Err(QuestionError::Argument(number));
    }
    Ok(symbols)
}

/// The symbol that the argument with a number names. A terminal must be in the set.
pub fn known_symbol(
    alloc: Global,
    question: &Question<'_>,
    number: usize,
    terminals: &TerminalSet,
) -> Result<Symbol, QuestionError> {
    match symbol_of(alloc, question.argument(number)?)? {
        Some(Symbol::Terminal(terminal)) if terminals.bit(&terminal).is_some() => {
            Ok(Symbol::Terminal(terminal))
        }
        Some(Symbol::Nonterminal(name)) => Ok(Symbol::Nonterminal(name)),
        _ => Err(QuestionError::Argument(number)),
    }
}

// Whether each terminal of a list of symbols is in the set.
fn have_known_terminals(symbols: &[Symbol], terminals: &TerminalSet) -> bool
    ensures { IsTrue result → HasKnownTerminals terminals.now symbols.now }
{
    for symbol in symbols {
        if let Symbol::Terminal(terminal) = symbol
            && terminals.bit(terminal).is_none()
        {
            return false;
        }
    }
    true
}

// The token that the argument with a number names. A terminal must be in the set.
fn known_token(
    alloc: Global,
    question: &Question<'_>,
    terminals: &TerminalSet,
    number: usize,
) -> Result<Token, QuestionError>
    ensures { IfOk result (IsKnown terminals.now) }
{
    match token_at(alloc, question, number)? {
        Token::Terminal(terminal) => match terminals.bit(&terminal) {
            Some(_) => Ok(Token::Terminal(terminal)),
            None => Err(QuestionError::Argument(number)),
        },
        Token::Eof => Ok(Token::Eof),
        Token::Error => Ok(Token::Error),
    }
}

/// The token that the argument with a number names. It need not be a terminal of the grammar.
pub fn token_at(
    alloc: Global,
    question: &Question<'_>,
    number: usize,
) -> Result<Token, QuestionError> {
    let word = question.argument(number)?;
    if word == "Eof" {
        return Ok(Token::Eof);
    }
    if word == "Error" {
        return Ok(Token::Error);
    }
    match unquoted(word) {
        Some(text) => Ok(Token::Terminal(TerminalString::Literal(Text::new(alloc, text)?))),
        None => Err(QuestionError::Argument(number)),
    }
}

/// The set of the tokens that the arguments `from..to` name. `All` adds each terminal and `Eof`.
/// The option `collapsed` is passed over.
pub fn tokens_between(
    alloc: Global,
    question: &Question<'_>,
    from: usize,
    to: usize,
    terminals: &TerminalSet,
) -> Result<TokenSet, QuestionError> {
    let mut tokens = TokenSet::new(alloc, terminals);
    for number in from..to {
        add_tokens(alloc, question, number, terminals, &mut tokens)?;
    }
    Ok(tokens)
}

// Adds the tokens that the argument with a number names to a set.
fn add_tokens(
    alloc: Global,
    question: &Question<'_>,
    number: usize,
    terminals: &TerminalSet,
    tokens: &mut TokenSet,
) -> Result<(), QuestionError> {
    let word = question.argument(number)?;
    if word == "All" {
        tokens.union_with(&TokenSet::all(alloc, terminals)?)?;
    } else if word != "collapsed" {
        let token = known_token(alloc, question, terminals, number)?;
        tokens.insert(token, terminals)?;
    }
    Ok(())
}

/// The number of the first of the arguments `from..to` that is a comma, or `to` if none is.
pub fn piece_end(question: &Question<'_>, from: usize, to: usize) -> usize {
    for number in from..to {
        if let Ok(word) = question.argument(number)
            && word == ","
        {
            return number;
        }
    }
    to
}
