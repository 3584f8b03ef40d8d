//! The states from which each state is entered.
use lalrpop_base::lr1_core::state::{State, StateIndex};
use lalrpop_base::memory::OutOfMemory;
use std::alloc::Global;

/// For each state, the numbers of the states that lead to it.
pub(super) type Links = Vec<Vec<usize>>;

/// The links of states. A target that is no state has none.
pub(super) fn links_of<L>(alloc: Global, states: &[State<'_, L>]) -> Result<Links, OutOfMemory> {
    let mut links = Vec::new(alloc);
    for _ in 0..states.len() {
        links.push(Vec::new(alloc))?;
    }
    for (number, state) in states.iter().enumerate() {
        for (_terminal, target) in state.shifts.iter() {
            add_link(&mut links, number, *target)?;
        }
        for (_name, target) in state.gotos.iter() {
            add_link(&mut links, number, *target)?;
        }
    }
    Ok(links)
}

fn add_link(links: &mut Links, from: usize, to: StateIndex) -> Result<(), OutOfMemory> {
    if let Some(sources) = links.get_mut(to.0) {
        sources.push(from)?;
    }
    Ok(())
}
