//! States as JSON: their items, edges and reductions.
ghost use Rattle.std.specs.Prelude.{◌≡◌, ◌++◌, OnOk, string_bytes};
ghost use Rattle.table_data.specs.States.{item_json, lookahead_json, reduction_json, state_json};

use super::lists::{push_array, push_targets};
use super::naming::Naming;
use super::to_json::{ToJson, push_number};
use lalrpop_base::lookahead::token_set::TokenSet;
use lalrpop_base::lr1_core::item::Lr1Item;
use lalrpop_base::lr1_core::state::Lr1State;
use lalrpop_base::memory::OutOfMemory;
use lalrpop_base::repr::Production;
use std::alloc::Global;

impl<'grammar> ToJson for Lr1Item<'grammar> {
    ghost json = { λ naming item. item_json naming.terminals.now naming.sets item };

    fn push_json(
        &self,
        _alloc: Global,
        text: &mut String,
        naming: &Naming<'_>,
    ) -> Result<(), OutOfMemory> {
        push_number(text, "{\"production\":", self.production.action.index())?;
        push_number(text, ",\"dot\":", self.index)?;
        text.push_str(",\"lookahead\":")?;
        push_lookahead(text, &self.lookahead, naming)?;
        text.push_str("}")?;
        Ok(())
    }
}

// Appends the number of a set, or `null` if it has all tokens: each terminal and the end of the
// input.
fn push_lookahead(text: &mut String, set: &TokenSet, naming: &Naming<'_>) -> Result<(), OutOfMemory>
    ensures { OnOk result (string_bytes text.new ≡ string_bytes text.old ++ lookahead_json
        naming.now.terminals.now naming.now.sets set.now) }
{
    if *set == naming.all {
        text.push_str("null")?;
        return Ok(());
    }
    push_number(text, "", naming.sets.number_of(set))
}

impl<'grammar> ToJson for (TokenSet, &'grammar Production) {
    ghost json = { λ naming reduction. reduction_json naming.sets reduction };

    fn push_json(
        &self,
        _alloc: Global,
        text: &mut String,
        naming: &Naming<'_>,
    ) -> Result<(), OutOfMemory> {
        push_number(text, "{\"production\":", self.1.action.index())?;
        push_number(text, ",\"lookahead\":", naming.sets.number_of(&self.0))?;
        text.push_str("}")?;
        Ok(())
    }
}

impl<'grammar> ToJson for Lr1State<'grammar> {
    ghost json = { λ naming state. state_json naming.terminals.now naming.sets state };

    fn push_json(
        &self,
        alloc: Global,
        text: &mut String,
        naming: &Naming<'_>,
    ) -> Result<(), OutOfMemory> {
        push_number(text, "{\"number\":", self.index.0)?;
        text.push_str(",\"items\":")?;
        push_array(alloc, text, ",", &self.items.vec, naming)?;
        text.push_str(",\"shifts\":")?;
        push_targets(alloc, text, &self.shifts, naming)?;
        text.push_str(",\"gotos\":")?;
        push_targets(alloc, text, &self.gotos, naming)?;
        text.push_str(",\"reductions\":")?;
        push_array(alloc, text, ",", &self.reductions, naming)?;
        text.push_str("}")?;
        Ok(())
    }
}
