//! The semantic actions, which make the value of a text.
use crate::actions::SymbolValue::{Elements, Json, Member, Members};
use crate::fault::{BEGIN, Fault, FaultKind};
use crate::lexer::Token;
use parse_tables::table::ParseTable;
use serde_json::{Map, Value};
use std::alloc::Global;
use table_parser::values::SemanticActions;

/// How deep arrays and objects may be nested. RFC 8259 allows a limit. The kit's `serde_json`
/// prints and drops a value by recursion, so that a deeper one needs a larger stack.
pub const NESTING: usize = 64;

/// The value of a symbol of the grammar: of a list it is what the list has so far.
#[derive(Drop)]
pub enum SymbolValue {
    Json(Value),
    Member(String, Value),
    Members(Map<String, Value>),
    Elements(Vec<Value>),
}

/// The actions on the tokens of a text.
#[derive(Drop)]
pub struct JsonActions<'a> {
    alloc: Global,
    table: &'a ParseTable,
    tokens: Vec<Token>,
    // How many arrays and objects are open.
    depth: usize,
}

impl<'a> JsonActions<'a> {
    /// Actions on these tokens.
    pub fn new(alloc: Global, table: &'a ParseTable, tokens: Vec<Token>) -> JsonActions<'a> {
        JsonActions {
            alloc,
            table,
            tokens,
            depth: 0,
        }
    }

    /// A fault at the token with a number.
    pub fn fault(&self, kind: FaultKind, number: usize) -> Fault {
        let place = match self.tokens.get(number) {
            Some(token) => token.place,
            None => BEGIN,
        };
        Fault { kind, place }
    }

    // Counts the arrays and objects that are open.
    fn count(&mut self, terminal: &str) {
        match terminal {
            "[" | "{" => self.depth = self.depth.saturating_add(1),
            "]" | "}" => self.depth = self.depth.saturating_sub(1),
            _ => {}
        }
    }
}

impl SemanticActions for JsonActions<'_> {
    type Value = SymbolValue;

    type Stop = Fault;

    // The value is moved out of the token.
    fn shift(&mut self, position: usize, _bit: u32) -> Result<SymbolValue, Fault> {
        let Some(token) = self.tokens.get_mut(position) else {
            return Err(self.fault(FaultKind::NoValue, position));
        };
        let terminal = token.terminal;
        let value = token.value.take();
        self.count(terminal);
        if self.depth > NESTING {
            return Err(self.fault(FaultKind::TooDeep, position));
        }
        Ok(Json(value))
    }

    fn reduce(
        &mut self,
        production: u32,
        values: &mut Vec<SymbolValue>,
        first: usize,
        _end: usize,
    ) -> Result<SymbolValue, Fault> {
        let Some(production) = self.table.productions().get(production as usize) else {
            return Err(self.fault(FaultKind::NoValue, first));
        };
        match reduced(self.alloc, production.action.index(), values) {
            Ok(value) => Ok(value),
            Err(kind) => Err(self.fault(kind, first)),
        }
    }
}

// The value of the production with an action. The values of its right side are moved, the last one
// first.
fn reduced(
    alloc: Global,
    action: usize,
    values: &mut Vec<SymbolValue>,
) -> Result<SymbolValue, FaultKind> {
    match (action, values.pop(), values.pop(), values.pop()) {
        // Text = Value, and each line of Value
        (0..=7, Some(value), ..) => Ok(value),
        // Object = "{" "}"
        (8, ..) => Ok(Json(Value::Object(Map::new(alloc)))),
        // Object = "{" Members "}"
        (9, _, Some(Members(members)), _) => Ok(Json(Value::Object(members))),
        // Members = Member
        (10, Some(Member(name, value)), ..) => with_member(Map::new(alloc), name, value),
        // Members = Members "," Member
        (11, Some(Member(name, value)), _, Some(Members(list))) => with_member(list, name, value),
        // Member = "string" ":" Value
        (12, Some(Json(value)), _, Some(Json(Value::String(name)))) => Ok(Member(name, value)),
        // Array = "[" "]"
        (13, ..) => Ok(Json(Value::Array(Vec::new(alloc)))),
        // Array = "[" Elements "]"
        (14, _, Some(Elements(elements)), _) => Ok(Json(Value::Array(elements))),
        // Elements = Value
        (15, Some(Json(value)), ..) => with_element(Vec::new(alloc), value),
        // Elements = Elements "," Value
        (16, Some(Json(value)), _, Some(Elements(list))) => with_element(list, value),
        _ => Err(FaultKind::NoValue),
    }
}

// Members, and one more. Of several members with one name the last one counts.
fn with_member(
    mut members: Map<String, Value>,
    name: String,
    value: Value,
) -> Result<SymbolValue, FaultKind> {
    match members.insert(name, value) {
        Ok(_) => Ok(Members(members)),
        Err(_) => Err(FaultKind::Memory),
    }
}

// Elements, and one more.
fn with_element(mut elements: Vec<Value>, value: Value) -> Result<SymbolValue, FaultKind> {
    match elements.push(value) {
        Ok(()) => Ok(Elements(elements)),
        Err(_) => Err(FaultKind::Memory),
    }
}
