//! The arguments of the command line.
ghost use Rattle.std.specs.Prelude.{◌≡◌, codes, option_map, map, string_bytes};
ghost use Rattle.lrshow_arguments.specs.Words.{check_by, check_of, check_view, choice_of, choice_view, conflict_choice, form_of, form_view, is_prefix, language_of, language_view, lone_form, near, parser_of, parser_or_tables, parser_view, parser_with, request_of, request_view, table_form_of, table_form_view, text_for, text_view, tree_of};

use grammar_text::symbols::is_a_name;
use program_answers::words::limit_of;

/// Which states a graph shows.
#[derive(Clone, Copy)]
pub enum Choice {
    All,
    /// The state with a number, and those at most so many edges from it or before it.
    Near(usize, usize),
    /// The states on shortest paths to states with conflicts.
    Conflicts,
}

/// The form in which tables are shown.
#[derive(Clone, Copy)]
pub enum TableForm {
    Json,
    /// The graph of states.
    Graph(Choice),
    /// A page for a browser.
    Page,
    /// The conflicts by their causes.
    Causes,
}

/// The language in which a parser is written.
#[derive(Clone, Copy)]
pub enum Language {
    C,
    Rust,
    Python,
}

/// A parser that is asked for.
#[derive(Clone, Copy)]
pub struct Parser<'a> {
    pub language: Language,
    /// Whether the grammar gets a new start symbol.
    pub is_augmented: bool,
    /// The names in a parser for C begin with it.
    pub prefix: &'a str,
}

/// What is shown of a grammar.
#[derive(Clone, Copy)]
pub enum Form<'a> {
    /// Its tables, or its conflicts.
    Tables(TableForm),
    /// The parse of tokens, and whether it is drawn as a graph.
    Tree(&'a [String], bool),
    /// A file that parses by its tables.
    Parser(Parser<'a>),
}

/// What the arguments ask for.
#[derive(Clone, Copy)]
pub struct Request<'a> {
    /// The name of the start symbol.
    pub start: &'a str,
    pub form: Form<'a>,
}

/// A text that is asked for without a file.
#[derive(Clone, Copy)]
pub enum Text {
    Help,
    Version,
}

/// The text that the first argument asks for.
pub fn text_for(words: &[String]) -> Option<Text>
    ensures { option_map text_view result ≡ text_for (map string_bytes words.now) }
{
    let [word, ..] = words else {
        return None;
    };
    let word = word.as_str();
    if word == "--help" || word == "-h" {
        return Some(Text::Help);
    }
    if word == "--version" {
        return Some(Text::Version);
    }
    None
}

/// A check of a grammar: its start symbol, and whether it is written as JSON.
#[derive(Clone, Copy)]
pub struct Check<'a> {
    pub start: &'a str,
    pub is_json: bool,
}

/// The check that the arguments ask for.
pub fn check_of(words: &[String]) -> Option<Check<'_>>
    ensures { option_map check_view result ≡ check_of (map string_bytes words.now) }
{
    match words {
        [_file, start, verb] => check_by(start.as_str(), verb.as_str(), false),
        [_file, start, verb, option] if option.as_str() == "--json" => {
            check_by(start.as_str(), verb.as_str(), true)
        }
        _ => None,
    }
}

// The check that a start symbol and a verb ask for.
fn check_by<'a>(start: &'a str, verb: &str, is_json: bool) -> Option<Check<'a>>
    ensures { option_map check_view result ≡ check_by start.now verb.now is_json }
{
    if !is_a_name(start) || verb != "check" {
        return None;
    }
    Some(Check { start, is_json })
}

/// What the arguments ask for. `None` if they do not have the form of a request.
pub fn request_of(words: &[String]) -> Option<Request<'_>>
    ensures { option_map request_view result ≡ request_of (map string_bytes words.now) }
{
    let [_file, start, verb, rest @ ..] = words else {
        return None;
    };
    if !is_a_name(start.as_str()) {
        return None;
    }
    let form = form_of(verb.as_str(), rest)?;
    Some(Request {
        start: start.as_str(),
        form,
    })
}

// The form that the arguments after the start symbol ask for.
fn form_of<'a>(verb: &str, rest: &'a [String]) -> Option<Form<'a>>
    ensures { option_map form_view result ≡ form_of verb.now (map string_bytes rest.now) }
{
    if verb == "tree" {
        return Some(tree_of(rest));
    }
    parser_or_tables(language_of(verb), verb, rest)
}

// The parser in a language that the arguments ask for, if there is one, and else the tables.
fn parser_or_tables<'a>(
    language: Option<Language>,
    verb: &str,
    rest: &'a [String],
) -> Option<Form<'a>>
    ensures { option_map form_view result ≡ parser_or_tables (option_map language_view language)
        verb.now (map string_bytes rest.now) }
{
    match language {
        Some(language) => {
            let parser = parser_of(language, rest)?;
            Some(Form::Parser(parser))
        }
        None => {
            let form = table_form_of(verb, rest)?;
            Some(Form::Tables(form))
        }
    }
}

// The language that a verb names.
fn language_of(verb: &str) -> Option<Language>
    ensures { option_map language_view result ≡ language_of verb.now }
{
    if verb == "c" {
        return Some(Language::C);
    }
    if verb == "rust" {
        return Some(Language::Rust);
    }
    if verb == "python" {
        return Some(Language::Python);
    }
    None
}

// The parser that the arguments after a language ask for.
fn parser_of(language: Language, rest: &[String]) -> Option<Parser<'_>>
    ensures { option_map parser_view result ≡ parser_of (language_view language)
        (map string_bytes rest.now) }
{
    let parser = Parser {
        language,
        is_augmented: false,
        prefix: "lr",
    };
    parser_with(parser, rest)
}

// A parser with the options that arguments are. Of two prefixes the later one counts.
#[tactic(auto, using(crate::proofs::ParserWords::augment_first, crate::proofs::ParserWords::none_first, crate::proofs::ParserWords::prefix_first, crate::proofs::ParserWords::no_prefix))]
fn parser_with<'a>(parser: Parser<'a>, rest: &'a [String]) -> Option<Parser<'a>>
    ensures { option_map parser_view result ≡ parser_with (parser_view parser.entry)
        (map string_bytes rest.now) }
{
    let [option, rest @ ..] = rest else {
        return Some(parser);
    };
    let option = option.as_str();
    if option == "--augment" {
        let parser = Parser {
            is_augmented: true,
            ..parser
        };
        return parser_with(parser, rest);
    }
    let [prefix, rest @ ..] = rest else {
        return None;
    };
    let prefix = prefix.as_str();
    if !is_prefix(parser.language, option, prefix) {
        return None;
    }
    parser_with(Parser { prefix, ..parser }, rest)
}

// Whether two arguments are the option for a prefix and a name. Only a parser for C has one.
fn is_prefix(language: Language, option: &str, prefix: &str) -> bool
    ensures { result ≡ is_prefix (language_view language) option.now prefix.now }
{
    let Language::C = language else {
        return false;
    };
    option == "--prefix" && is_a_name(prefix)
}

// The parse that the arguments after `tree` ask for.
fn tree_of<'a>(rest: &'a [String]) -> Form<'a>
    ensures { form_view result ≡ tree_of (map string_bytes rest.now) }
{
    if let [option, tokens @ ..] = rest {
        if option.as_str() == "--dot" {
            return Form::Tree(tokens, true);
        }
    }
    Form::Tree(rest, false)
}

// The form of tables that the arguments after the start symbol ask for.
fn table_form_of(verb: &str, rest: &[String]) -> Option<TableForm>
    ensures { option_map table_form_view result
        ≡ table_form_of verb.now (map string_bytes rest.now) }
{
    if verb == "dot" {
        let choice = choice_of(rest)?;
        return Some(TableForm::Graph(choice));
    }
    if rest.is_empty() {
        return lone_form(verb);
    }
    None
}

// The form that a verb without arguments after it asks for.
fn lone_form(verb: &str) -> Option<TableForm>
    ensures { option_map table_form_view result ≡ lone_form verb.now }
{
    if verb == "json" {
        return Some(TableForm::Json);
    }
    if verb == "html" {
        return Some(TableForm::Page);
    }
    if verb == "conflicts" {
        return Some(TableForm::Causes);
    }
    None
}

// The states that the arguments after `dot` ask for.
fn choice_of(rest: &[String]) -> Option<Choice>
    ensures { option_map choice_view result ≡ choice_of (map string_bytes rest.now) }
{
    match rest {
        [] => Some(Choice::All),
        [option] => conflict_choice(option.as_str()),
        [option, state] => near(option.as_str(), state.as_str(), "--depth", "1"),
        [option, state, other, depth] => near(
            option.as_str(),
            state.as_str(),
            other.as_str(),
            depth.as_str(),
        ),
        _ => None,
    }
}

// The states that a lone option asks for.
fn conflict_choice(option: &str) -> Option<Choice>
    ensures { option_map choice_view result ≡ conflict_choice option.now }
{
    if option == "--conflicts" {
        return Some(Choice::Conflicts);
    }
    None
}

// The states that two options with their numbers ask for.
fn near(option: &str, state: &str, other: &str, depth: &str) -> Option<Choice>
    ensures { option_map choice_view result ≡ near option.now state.now other.now depth.now }
{
    if option != "--around" || other != "--depth" {
        return None;
    }
    let state = limit_of(state)?;
    let depth = limit_of(depth)?;
    Some(Choice::Near(state, depth))
}
