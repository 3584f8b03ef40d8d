//! The arguments of the command line.
use grammar_text::symbols::is_a_name;
use program_answers::words::limit_of;

/// What is asked of a parse table.
#[derive(Clone, Copy)]
pub enum Task {
    /// The parse of the tokens.
    Parse,
    /// The tokens that may come after the given ones.
    Expected,
}

/// What the arguments ask for.
#[derive(Clone, Copy)]
pub struct Request<'a> {
    /// The name of the start symbol.
    pub start: &'a str,
    pub task: Task,
    /// The most steps that the parser makes.
    pub limit: usize,
    pub tokens: &'a [String],
}

/// What the arguments ask for. `None` if they do not have the form of a request.
pub fn request_of(words: &[String]) -> Option<Request<'_>> {
    let [_file, start, verb, limit, tokens @ ..] = words else {
        return None;
    };
    if !is_a_name(start.as_str()) {
        return None;
    }
    let task = task_of(verb.as_str())?;
    let limit = limit_of(limit.as_str())?;
    Some(Request {
        start: start.as_str(),
        task,
        limit,
        tokens,
    })
}

// What a verb asks for.
fn task_of(verb: &str) -> Option<Task> {
    if verb == "parse" {
        return Some(Task::Parse);
    }
    if verb == "expected" {
        return Some(Task::Expected);
    }
    None
}
