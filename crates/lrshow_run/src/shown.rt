//! What is shown of the tables of a grammar, or of its conflicts.
ghost use Rattle.std.specs.Prelude.{◌≡◌, ◌<◌, IfOk, [], false, length, option_map, string_bytes};
ghost use Rattle.grammar_diagnostics.specs.Messages.{name_now};
ghost use Rattle.lalrpop_base.specs.Words.{IsWellFormed};
ghost use Rattle.lrshow_check.specs.Output.{IsOutput};
ghost use Rattle.lrshow_run.specs.Shown.{AreTablesShown, IsFormShown, IsChosenGraph, IsGraphShown, IsMadeShown, IsNearChoice, how_to_cut, is_missing, needs_start, no_conflicts, no_start, no_start_text, no_state};
ghost use Rattle.lrshow_arguments.specs.Words.{All, Causes, Json, Near, Page, ToConflicts, choice_view, form_view, table_form_view};
ghost use Rattle.table_data.specs.Whole.{IsData};
ghost use Rattle.table_pictures.specs.Graphs.{edge_count, graph};

use crate::tree::parse_shown;
use conflict_causes::text::conflicts_text;
use grammar_diagnostics::nearest::nearest_name;
use lalrpop_base::lr1_core::state::Lr1State;
use lalrpop_base::memory::OutOfMemory;
use lalrpop_base::repr::NonterminalString;
use lalrpop_base::repr::grammar::Grammar;
use lalrpop_tables::build::Method;
use lrshow_arguments::words::{Choice, Form, TableForm};
use lrshow_check::built::{Built, build};
use lrshow_check::lines::visible_lines;
use lrshow_parser::shown::parser_shown;
use program_answers::answer::Shown;
use std::alloc::Global;
use table_data::whole::tables_json;
use table_pictures::dot::{edge_count, graph_text};
use table_pictures::edges::ShownStates;
use table_pictures::near::states_near;
use table_pictures::page::page_text;
use table_pictures::to_conflicts::states_to_conflicts;

/// Whether a form needs a production of the start symbol, and there is none.
pub(crate) fn is_missing(grammar: &Grammar, start: &NonterminalString, form: Form<'_>) -> bool
    ensures { result ≡ is_missing grammar.now start.now (form_view form.entry) }
{
    needs_start(form) && grammar.productions_for(start).is_empty()
}

// Whether a form has nothing to show without a production of the start symbol.
fn needs_start(form: Form<'_>) -> bool
    ensures { result ≡ needs_start (form_view form.entry) }
{
    match form {
        Form::Tables(TableForm::Causes) => true,
        Form::Tables(_) => false,
        Form::Tree(_, _) => true,
        Form::Parser(_) => true,
    }
}

/// What is shown if the start symbol has no production. The error is `OutOfMemory` if an
/// allocation fails.
pub(crate) fn no_start(
    alloc: Global,
    grammar: &Grammar,
    start: &NonterminalString,
) -> Result<Shown, OutOfMemory>
    requires { IsWellFormed grammar.now }
    ensures { IfOk result (IsOutput 2 [] (no_start grammar.now start.now)) }
{
    let near = nearest_name(alloc, grammar, start)?;
    let message = no_start_text(alloc, start, near)?;
    wrong_request(alloc, message)
}

// The message that a start symbol has no production, with a name that may be meant.
fn no_start_text(
    alloc: Global,
    start: &NonterminalString,
    near: Option<&NonterminalString>,
) -> Result<String, OutOfMemory>
    ensures { IfOk result (λ text. string_bytes text
        ≡ no_start_text start.now (option_map name_now near.entry)) }
{
    match near {
        None => Ok(format!(in alloc; "`{start}` has no production\n")?),
        Some(other) => Ok(format!(in alloc;
            "`{start}` has no production; perhaps `{other}` is meant\n"
        )?),
    }
}

/// What is shown of the tables of a grammar, of a parse by them, or of a parser. The error is `OutOfMemory` if
/// an allocation fails.
pub(crate) fn made_shown(
    alloc: Global,
    grammar: &Grammar,
    start: NonterminalString,
    method: Method,
    form: Form<'_>,
) -> Result<Shown, OutOfMemory>
    requires well_formed { IsWellFormed grammar.now }
    requires canonical { grammar.now.algorithm.lalr ≡ false }
    ensures { IfOk result (IsMadeShown method grammar.now start (form_view form.entry)) }
{
    match form {
        Form::Tables(form) => tables_shown(alloc, grammar, start, method, form),
        Form::Tree(tokens, is_graph) => parse_shown(
            alloc, grammar, start, method, tokens, is_graph,
        ),
        Form::Parser(parser) => parser_shown(alloc, grammar, start, method, parser),
    }
}

// What is shown of the tables of a grammar, or of its conflicts, in a form.
fn tables_shown(
    alloc: Global,
    grammar: &Grammar,
    start: NonterminalString,
    method: Method,
    form: TableForm,
) -> Result<Shown, OutOfMemory>
    requires well_formed { IsWellFormed grammar.now }
    requires canonical { grammar.now.algorithm.lalr ≡ false }
    ensures { IfOk result (AreTablesShown method grammar.now start (table_form_view form)) }
{
    let name = start.clone(alloc)?;
    let built = build(alloc, grammar, start, method)?;
    let shown = form_shown(alloc, grammar, &name, &built, form)?;
    Ok(shown)
}

// What is shown of the states and conflicts that were built, in a form.
fn form_shown<'grammar>(
    alloc: Global,
    grammar: &'grammar Grammar,
    start: &NonterminalString,
    built: &Built<'grammar>,
    form: TableForm,
) -> Result<Shown, OutOfMemory>
    requires well_formed { IsWellFormed grammar.now }
    ensures { IfOk result (IsFormShown grammar.now start.now built.now.status
        built.now.states.items built.now.conflicts.items (table_form_view form)) }
{
    match form {
        TableForm::Json => json(alloc, grammar, start, built),
        TableForm::Page => page(alloc, grammar, start, built),
        TableForm::Graph(choice) => graph_shown(alloc, grammar, start, built, choice),
        TableForm::Causes => causes_shown(alloc, grammar, start, built),
    }
}

// The JSON text of what was built.
fn data<'grammar>(
    alloc: Global,
    grammar: &'grammar Grammar,
    start: &NonterminalString,
    built: &Built<'grammar>,
) -> Result<String, OutOfMemory>
    requires well_formed { IsWellFormed grammar.now }
    ensures { IfOk result (λ text. IsData grammar.now start.now built.now.states.items
        built.now.conflicts.items (string_bytes text)) }
{
    tables_json(alloc, grammar, start, &built.states, &built.conflicts)
}

// An exit status and a text, without a remark.
fn whole(alloc: Global, status: u8, text: String) -> Result<Shown, OutOfMemory>
    ensures { IfOk result (IsOutput status (string_bytes text) []) }
{
    Shown::of(alloc, status, text, String::new(alloc))
}

// What is shown for JSON.
fn json<'grammar>(
    alloc: Global,
    grammar: &'grammar Grammar,
    start: &NonterminalString,
    built: &Built<'grammar>,
) -> Result<Shown, OutOfMemory>
    requires well_formed { IsWellFormed grammar.now }
    ensures { IfOk result (IsFormShown grammar.now start.now built.now.status
        built.now.states.items built.now.conflicts.items Json) }
{
    let text = data(alloc, grammar, start, built)?;
    whole(alloc, built.status, text)
}

// What is shown for a page.
fn page<'grammar>(
    alloc: Global,
    grammar: &'grammar Grammar,
    start: &NonterminalString,
    built: &Built<'grammar>,
) -> Result<Shown, OutOfMemory>
    requires well_formed { IsWellFormed grammar.now }
    ensures { IfOk result (IsFormShown grammar.now start.now built.now.status
        built.now.states.items built.now.conflicts.items Page) }
{
    let json = data(alloc, grammar, start, built)?;
    let text = page_text(alloc, json.as_str())?;
    whole(alloc, built.status, text)
}

// The greatest number of edges of a graph that is shown without a remark on how to cut it.
const MANY: usize = 200;

// The steps of a search for a witness of one cause.
const SEARCH_STEPS: usize = 10_000;

// What is shown for the causes of conflicts.
fn causes_shown<'grammar>(
    alloc: Global,
    grammar: &'grammar Grammar,
    start: &NonterminalString,
    built: &Built<'grammar>,
) -> Result<Shown, OutOfMemory>
    requires well_formed { IsWellFormed grammar.now }
    ensures { IfOk result (IsFormShown grammar.now start.now built.now.status
        built.now.states.items built.now.conflicts.items Causes) }
{
    let text = conflicts_text(
        alloc,
        grammar,
        &built.states,
        &built.conflicts,
        SEARCH_STEPS,
    )?;
    let lines = visible_lines(alloc, text.as_str())?;
    whole(alloc, built.status, lines)
}

// What is shown for a graph.
fn graph_shown<'grammar>(
    alloc: Global,
    grammar: &'grammar Grammar,
    start: &NonterminalString,
    built: &Built<'grammar>,
    choice: Choice,
) -> Result<Shown, OutOfMemory>
    ensures { IfOk result (IsGraphShown grammar.now start.now built.now.status
        built.now.states.items built.now.conflicts.items (choice_view choice)) }
{
    match choice {
        Choice::All => whole_graph(alloc, grammar, start, built),
        Choice::Near(number, depth) => { graph_near(alloc, grammar, start, built, number, depth) }
        Choice::Conflicts => graph_to_conflicts(alloc, grammar, start, built),
    }
}

// What is shown for the graph of all states, with a remark on how to cut it if it is large.
fn whole_graph<'grammar>(
    alloc: Global,
    grammar: &'grammar Grammar,
    start: &NonterminalString,
    built: &Built<'grammar>,
) -> Result<Shown, OutOfMemory>
    ensures { IfOk result (IsChosenGraph grammar.now start.now built.now.status
        built.now.states.items built.now.conflicts.items All) }
{
    let remark = how_to_cut(alloc, edge_count(&built.states))?;
    let text = graph(alloc, grammar, start, built, &ShownStates::All)?;
    drawn(alloc, built.status, text, remark)
}

// An exit status, a text and a remark.
fn drawn(alloc: Global, status: u8, text: String, remark: String) -> Result<Shown, OutOfMemory>
    ensures { IfOk result (IsOutput status (string_bytes text) (string_bytes remark)) }
{
    Shown::of(alloc, status, text, remark)
}

// What is shown for the graph of the states near one, or that there is no such state.
fn graph_near<'grammar>(
    alloc: Global,
    grammar: &'grammar Grammar,
    start: &NonterminalString,
    built: &Built<'grammar>,
    number: usize,
    depth: usize,
) -> Result<Shown, OutOfMemory>
    ensures { IfOk result (IsGraphShown grammar.now start.now built.now.status
        built.now.states.items built.now.conflicts.items (Near number depth)) }
{
    if number >= built.states.len() {
        return no_state(alloc, number);
    }
    let chosen = near_choice(alloc, &built.states, number, depth)?;
    let text = graph(alloc, grammar, start, built, &chosen)?;
    whole(alloc, built.status, text)
}

// The states near one: at depth 1 the state and its neighbours.
fn near_choice(
    alloc: Global,
    states: &[Lr1State<'_>],
    number: usize,
    depth: usize,
) -> Result<ShownStates, OutOfMemory>
    requires { number < length states.now }
    ensures { IfOk result (IsNearChoice states.now number depth) }
{
    if depth == 1 {
        return Ok(ShownStates::Around(number));
    }
    Ok(ShownStates::Only(states_near(alloc, states, number, depth)?))
}

// What is shown for the graph of the states on shortest paths to conflicts.
fn graph_to_conflicts<'grammar>(
    alloc: Global,
    grammar: &'grammar Grammar,
    start: &NonterminalString,
    built: &Built<'grammar>,
) -> Result<Shown, OutOfMemory>
    ensures { IfOk result (IsChosenGraph grammar.now start.now built.now.status
        built.now.states.items built.now.conflicts.items ToConflicts) }
{
    let chosen = ShownStates::Only(states_to_conflicts(alloc, &built.states, &built.conflicts)?);
    let remark = no_conflicts(alloc, built.conflicts.len())?;
    let text = graph(alloc, grammar, start, built, &chosen)?;
    drawn(alloc, built.status, text, remark)
}

// The remark on a graph of the states on paths to so many conflicts, if there are none.
fn no_conflicts(alloc: Global, count: usize) -> Result<String, OutOfMemory>
    ensures { IfOk result (λ text. string_bytes text ≡ no_conflicts count) }
{
    if count == 0 {
        return Ok(String::from_str(alloc, "no conflicts\n")?);
    }
    Ok(String::new(alloc))
}

// The text of a graph of the states that are chosen.
fn graph<'grammar>(
    alloc: Global,
    grammar: &'grammar Grammar,
    start: &NonterminalString,
    built: &Built<'grammar>,
    chosen: &ShownStates,
) -> Result<String, OutOfMemory>
    ensures { IfOk result (λ text. string_bytes text ≡ graph start.now grammar.now.terminals
        built.now.states.items built.now.conflicts.items chosen.now) }
{
    graph_text(
        alloc,
        start,
        &grammar.terminals,
        &built.states,
        &built.conflicts,
        chosen,
    )
}

// What is shown if there is no state with a number.
fn no_state(alloc: Global, number: usize) -> Result<Shown, OutOfMemory>
    ensures { IfOk result (IsOutput 2 [] (no_state number)) }
{
    wrong_request(alloc, format!(in alloc; "no state {number}\n")?)
}

// What is shown if the arguments ask for what the grammar does not have: a remark, with status 2.
fn wrong_request(alloc: Global, remark: String) -> Result<Shown, OutOfMemory>
    ensures { IfOk result (IsOutput 2 [] (string_bytes remark)) }
{
    Shown::of(alloc, 2, String::new(alloc), remark)
}

// The remark on how to cut a graph with so many edges. It is empty for at most `MANY` edges.
fn how_to_cut(alloc: Global, count: usize) -> Result<String, OutOfMemory>
    ensures { IfOk result (λ text. string_bytes text ≡ how_to_cut count) }
{
    if count <= MANY {
        return Ok(String::new(alloc));
    }
    Ok(format!(in alloc;
        "{count} edges: --around STATE shows one state and its neighbours, --conflicts the paths to conflicts\n"
    )?)
}
