//! The texts that are written without a file.
ghost use Rattle.std.specs.Prelude.{◌≡◌, ◌++◌, IfOk, string_bytes};
ghost use Rattle.lrshow_arguments.specs.declared.help.TheConstants.{DETAILS};
ghost use Rattle.lrshow_arguments.specs.Help.{IsText, usage};
ghost use Rattle.lrshow_arguments.specs.Words.{text_view};

use crate::words::Text;
use lalrpop_base::memory::OutOfMemory;
use std::alloc::Global;

/// How the program is called.
pub const USAGE: &str =
    "usage: lrshow FILE START (check [--json] | conflicts | tree [--dot] TOKEN.. | json | dot [--around STATE [--depth N] | --conflicts] | html | c [--augment] [--prefix NAME] | rust [--augment] | python [--augment])\n";

// What the usage means.
const DETAILS: &str = "       lrshow (--help | -h | --version)

lrshow finds mistakes and conflicts of a grammar, draws parses, shows LR(1) tables, and writes
parsers by them.
FILE is a grammar file, or - for standard input. START is the start symbol.

  check               errors and warnings, a line for each; with --json as data
  conflicts           the causes of conflicts, and lists of symbols with two derivations
  tree TOKEN..        the parse tree of the tokens as lines; with --dot as a graph
  json                the productions, states and conflicts, for other programs
  dot                 a graph of the states, for Graphviz
  dot --around STATE  the state with this number and its neighbours; --depth N goes N edges far
  dot --conflicts     the states on shortest paths to conflicts
  html                a page for a browser, in one file
  c, rust, python     a parser in this language, in one file that needs no library
  c --prefix NAME     a parser in C whose names begin with NAME, and not with lr
  c --augment         also of a START that is on a right side; rust and python, too

LALRPOP_LANE_TABLE=disabled in the environment asks for the canonical construction.

Exit status:
  0  there are tables or a tree, or a check found nothing
  1  there are conflicts or no tree, or a check found only warnings
  2  the arguments or the grammar are wrong, or the output cannot be written
  3  an allocation failed
";

/// A text that is asked for. `OutOfMemory` if an allocation fails.
pub fn text_of(alloc: Global, asked: Text) -> Result<String, OutOfMemory>
    ensures { IfOk result (λ text. IsText (text_view asked) (string_bytes text)) }
{
    match asked {
        Text::Help => help(alloc),
        Text::Version => Ok(format!(in alloc; "lrshow 0.23.1\n")?),
    }
}

// The usage and what it means.
fn help(alloc: Global) -> Result<String, OutOfMemory>
    ensures { IfOk result (λ text. string_bytes text ≡ usage ++ DETAILS.now) }
{
    let mut text = String::new(alloc);
    text.push_str(USAGE)?;
    text.push_str(DETAILS)?;
    Ok(text)
}
