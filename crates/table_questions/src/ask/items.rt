//! Items that arguments name.
use case_files::question::QuestionError;
use lalrpop_base::lr1_core::item::{Item, Lr0Item};
use lalrpop_base::repr::Production;
use lalrpop_base::repr::grammar::Grammar;

/// The item that an argument, or a part of it, names. It has the form `2.1`: the number of an
/// action, a point and the place of the dot. `argument` is the number of the argument, for the
/// error.
pub fn item_of<'grammar>(
    grammar: &'grammar Grammar,
    word: &str,
    argument: usize,
) -> Result<Lr0Item<'grammar>, QuestionError> {
    let fault = QuestionError::Argument(argument);
    let Some((action, dot)) = word.split_once('.') else {
        return Err(fault);
    };
    let (Ok(action), Ok(dot)) = (action.parse::<usize>(), dot.parse::<usize>()) else {
        return Err(fault);
    };
    match production_of(grammar, action) {
        Some(production) if dot <= production.symbols.len() => Ok(Item::lr0(production, dot)),
        _ => Err(fault),
    }
}

// The production whose action has a number. `None` if there is no such action.
fn production_of(grammar: &Grammar, action: usize) -> Option<&Production> {
    for (_, entry) in grammar.nonterminals.iter() {
        let mut productions = entry.productions.iter();
        if let Some(found) = productions.find(|production| production.action.index() == action) {
            return Some(found);
        }
    }
    None
}
