//! A call that checks tables, which a caller gives as numbers.
ghost use Rattle.std.specs.Prelude.{◌≡◌, ◌++◌, ℕ, List, Some, IfOk, IsFalse, IsTrue, codes, string_bytes};
ghost use Rattle.lalrpop_base.specs.Words.{AreFaithful, IsWellFormed, contents, productions};
ghost use Rattle.program_answers.specs.Answers.{IsAnswerTo};
ghost use Rattle.program_answers.specs.Texts.{line};
ghost use Rattle.table_numbers.specs.Words.{AreWholeNumbersOf, lists_of};
ghost use Rattle.lr1_calls.specs.Checked.{FailCheck, IsChecked, IsMessage, IsRefusal, IsVerdict, IsVerdictFor};

use crate::put::put_answer;
use grammar_text::symbols::name_of;
use lalrpop_base::lr1_core::coherent::are_coherent;
use lalrpop_base::lr1_core::state::Lr1State;
use lalrpop_base::memory::OutOfMemory;
use lalrpop_base::repr::NonterminalString;
use lalrpop_base::repr::grammar::Grammar;
use lalrpop_construction::options::Method;
use lalrpop_tables::check::check_tables;
use program_answers::answer::{Answer, Shown, answer_to};
use program_answers::ask::Ask;
use std::alloc::Global;
use std::str::from_utf8;
use table_numbers::error::NumbersError;
use table_numbers::numbers::read_with_items;

/// Whether tables are faithful to the grammar text `text` and the start symbol `start`. The tables
/// are numbers with items, which any program may have made. As much of a message as fits goes to
/// `out`, and the length of the whole message to `length`. The result is the status: 0 for faithful
/// tables, for which there is no message, 1 for other tables, 2 for a fault, and 3 if an allocation
/// fails.
pub fn check(
    alloc: Global,
    text: &[u8],
    start: &[u8],
    numbers: &[u32],
    out: &mut [u8],
    length: &mut usize,
) -> u8
    ensures { IsChecked text.now start.now numbers.now result out.old out.new length.new }
{
    let answer = answer_to_check(alloc, text, start, numbers);
    put_answer(&answer, out, length)
}

// The result for a grammar text, a start symbol and numbers.
fn answer_to_check(alloc: Global, text: &[u8], start: &[u8], numbers: &[u32]) -> Answer
    ensures { IsAnswerTo (IsVerdict start.now numbers.now) (codes "grammar") (Some (Some text.now))
        result }
{
    let check = NumbersCheck { start, numbers };
    match answer_to(alloc, &check, "grammar", Method::Lane, Some(text)) {
        Ok(answer) => answer,
        Err(_) => Answer::Memory,
    }
}

// A check of numbers for a start symbol.
#[derive(Drop)]
struct NumbersCheck<'a> {
    start: &'a [u8],
    numbers: &'a [u32],
}

impl Ask for NumbersCheck<'_> {
    ghost IsShown = { λ check _ g s. IsVerdict check.start.now check.numbers.now g s };

    fn shown(
        &self,
        alloc: Global,
        _method: Method,
        grammar: &Grammar,
    ) -> Result<Shown, OutOfMemory> {
        verdict(alloc, grammar, self.start, self.numbers)
    }
}

// The verdict on numbers for a grammar and the bytes of a start symbol.
fn verdict(
    alloc: Global,
    grammar: &Grammar,
    start: &[u8],
    numbers: &[u32],
) -> Result<Shown, OutOfMemory>
    requires { IsWellFormed grammar.now }
    ensures { IfOk result (IsVerdict start.now numbers.now grammar.now) }
{
    let Ok(text) = from_utf8(start) else {
        let shown = message(alloc, 2, "the start symbol is not UTF-8\n")?;
        return Ok(shown);
    };
    let symbol = name_of(alloc, text)?;
    let shown = verdict_for(alloc, grammar, symbol, numbers)?;
    Ok(shown)
}

// A status, and a message alone.
fn message(alloc: Global, status: u8, message: &str) -> Result<Shown, OutOfMemory>
    ensures { IfOk result (IsMessage status message.now) }
{
    let remark = String::from_str(alloc, message)?;
    let shown = Shown::of(alloc, status, String::new(alloc), remark)?;
    Ok(shown)
}

// The verdict on numbers for a grammar and a start symbol.
fn verdict_for(
    alloc: Global,
    grammar: &Grammar,
    start: NonterminalString,
    numbers: &[u32],
) -> Result<Shown, OutOfMemory>
    requires { IsWellFormed grammar.now }
    ensures { IfOk result (IsVerdictFor start numbers.now grammar.now) }
{
    if grammar.nonterminals.get(&start).is_none() {
        let shown = message(alloc, 2, "the start symbol is no nonterminal\n")?;
        return Ok(shown);
    }
    match read_with_items(alloc, grammar, numbers) {
        Ok(states) => verdict_on(alloc, grammar, start, &states),
        Err(NumbersError::Memory) => Err(OutOfMemory),
        Err(error) => {
            let shown = why_refused(alloc, &error)?;
            Ok(shown)
        }
    }
}

// What is shown if numbers are refused.
fn why_refused(alloc: Global, error: &NumbersError) -> Result<Shown, OutOfMemory>
    ensures { IfOk result IsRefusal }
{
    let why = format!(in alloc; "{error}")?;
    let text = refusal_text(alloc, why.as_str())?;
    let shown = message(alloc, 2, text.as_str())?;
    Ok(shown)
}

// The message that numbers are refused.
fn refusal_text(alloc: Global, why: &str) -> Result<String, OutOfMemory>
    ensures { IfOk result
        (λ text. string_bytes text ≡ line (codes "the tables: " ++ why.now)) }
{
    Ok(format!(in alloc; "the tables: {why}\n")?)
}

// The verdict on the states of numbers.
fn verdict_on<'grammar>(
    alloc: Global,
    grammar: &'grammar Grammar,
    start: NonterminalString,
    states: &[Lr1State<'grammar>],
) -> Result<Shown, OutOfMemory>
    requires { IsWellFormed grammar.now }
    ensures { (numbers : List ℕ) → AreWholeNumbersOf (lists_of grammar.now) numbers states.now →
        IfOk result (IsVerdictFor start numbers grammar.now) }
{
    if are_tables(alloc, grammar, start, states)? {
        let shown = message(alloc, 0, "")?;
        return Ok(shown);
    }
    let shown = message(alloc, 1, "the tables are not faithful\n")?;
    Ok(shown)
}

// Whether states pass the check of tables.
fn are_tables<'grammar>(
    alloc: Global,
    grammar: &'grammar Grammar,
    start: NonterminalString,
    states: &[Lr1State<'grammar>],
) -> Result<bool, OutOfMemory>
    requires { IsWellFormed grammar.now }
    ensures faithful { IfOk result (λ yes. IsTrue yes →
        AreFaithful (productions grammar.now) start (contents grammar.now.terminals states.now)) }
    ensures fail { IfOk result (λ yes. IsFalse yes → FailCheck grammar.now start states.now) }
{
    if !are_coherent(states) {
        return Ok(false);
    }
    if states.is_empty() {
        return Ok(false);
    }
    let passed = check_tables(alloc, grammar, start, states)?;
    Ok(passed)
}
