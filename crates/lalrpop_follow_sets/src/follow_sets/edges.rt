//! The transitions of a state by the numbers of their symbols.
ghost use Rattle.std.specs.Prelude.{◌≡◌, ℕ, slice_get, Some, Contains, IfSome, IsNone};
ghost use Rattle.lalrpop_construction.specs.states.NumberedStates.{EdgesAscend};

/// The index of the transition over a symbol, found by binary search. A transition is a pair of the
/// number of a symbol and a target state.
pub fn place_of(edges: &[(usize, usize)], symbol: usize) -> Option<usize>
    requires { EdgesAscend edges.now }
    ensures found { IfSome result (λ place.
        (target : ℕ) × (slice_get edges.now place ≡ Some (symbol, target))) }
    ensures none { IsNone result → (target : ℕ) → ¬ Contains edges.now (symbol, target) }
{
    let mut low = 0;
    let mut high = edges.len();
    while low < high {
        let middle = low + (high - low) / 2;
        if edges[middle].0 < symbol {
            low = middle + 1;
        } else {
            high = middle;
        }
    }
    if low < edges.len() && edges[low].0 == symbol {
        Some(low)
    } else {
        None
    }
}
