//! The origins of the edges to a state: the symbol and source of each.
ghost use Rattle.std.specs.Prelude.{◌≡◌, filter};
ghost use Rattle.lalrpop_state_graph.specs.graphs.GraphCopies.{is_other as tells_other};
ghost use Rattle.lalrpop_state_graph.specs.graphs.StateGraph.{IsChangedAt};

use lalrpop_base::exact::equal;
use lalrpop_base::lr1_core::state::StateIndex;
use lalrpop_base::repr::Symbol;

// Whether the origin is not the source with the symbol.
fn is_other(origin: &(Symbol, StateIndex), symbol: &Symbol, source: StateIndex) -> bool
    ensures { result ≡ tells_other symbol.now source origin.now }
{
    let from = origin.1;
    if from.0 != source.0 {
        return true;
    }
    !equal(&origin.0, symbol)
}

/// Removes the edges from the source over the symbol from those to the state with the number.
pub(super) fn remove_origin(
    lists: &mut Vec<Vec<(Symbol, StateIndex)>>,
    number: usize,
    symbol: &Symbol,
    source: StateIndex,
)
    ensures { IsChangedAt number (filter (tells_other symbol.now source)) lists.old.items
        lists.new.items }
{
    let count = lists.len();
    if number >= count {
        return;
    }
    lists[number].retain(|origin| is_other(origin, symbol, source));
}
