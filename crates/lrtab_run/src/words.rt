//! The arguments of the command line.
ghost use Rattle.std.specs.Prelude.{◌≡◌, option_map, map, string_bytes};
ghost use Rattle.lrtab_run.specs.Words.{lone_task, task_of, task_view, request_of, request_view};

use grammar_text::symbols::is_a_name;
pub use program_answers::words::{limit_of, method_of, tokens_of};

/// What is asked of the tables of a grammar.
#[derive(Clone, Copy)]
pub enum Task<'a> {
    /// A parse of tokens in at most so many steps.
    Parse(usize, &'a [String]),
    /// The report of the tables or of the conflicts.
    Report,
    /// The explanation of the conflicts.
    Explain,
}

/// What the arguments ask for.
#[derive(Clone, Copy)]
pub struct Request<'a> {
    /// The name of the start symbol.
    pub start: &'a str,
    pub task: Task<'a>,
}

/// What the arguments ask for. `None` if they do not have the form of a request.
pub fn request_of(words: &[String]) -> Option<Request<'_>>
    ensures { option_map request_view result ≡ request_of (map string_bytes words.now) }
{
    let [_file, start, verb, rest @ ..] = words else {
        return None;
    };
    if !is_a_name(start.as_str()) {
        return None;
    }
    let task = task_of(verb.as_str(), rest)?;
    Some(Request {
        start: start.as_str(),
        task,
    })
}

// What the arguments after the start symbol ask for.
fn task_of<'a>(verb: &str, rest: &'a [String]) -> Option<Task<'a>>
    ensures { option_map task_view result ≡ task_of verb.now (map string_bytes rest.now) }
{
    let [limit, tokens @ ..] = rest else {
        return lone_task(verb);
    };
    if verb != "parse" {
        return None;
    }
    let limit = limit_of(limit.as_str())?;
    Some(Task::Parse(limit, tokens))
}

// What a verb without arguments after it asks for.
fn lone_task<'a>(verb: &str) -> Option<Task<'a>>
    ensures { option_map task_view result ≡ lone_task verb.now }
{
    if verb == "report" {
        return Some(Task::Report);
    }
    if verb == "explain" {
        return Some(Task::Explain);
    }
    None
}
