//! What the productions are worth.
use crate::lexer::Token;
use parse_tables::table::ParseTable;
use table_parser::values::SemanticActions;

/// What is wrong with a text besides its syntax.
#[derive(Clone, Copy, Debug)]
pub enum FaultKind {
    Unknown(char),
    TooLarge,
    DivisionByZero,
    NoValue,
    Memory,
}

/// What is wrong, and in which line and column.
#[derive(Clone, Copy, Debug)]
pub struct Fault {
    pub kind: FaultKind,
    pub line: u32,
    pub column: u32,
}

impl Fault {
    /// The fault at the place of a token.
    pub fn at(kind: FaultKind, token: &Token) -> Fault {
        Fault {
            kind,
            line: token.line,
            column: token.column,
        }
    }
}

/// The semantic actions: the value of a number is its own, and that of a production is computed.
#[derive(Drop)]
pub struct Numbers<'a> {
    table: &'a ParseTable,
    tokens: &'a [Token],
}

impl<'a> Numbers<'a> {
    /// Actions on these tokens.
    pub fn new(table: &'a ParseTable, tokens: &'a [Token]) -> Numbers<'a> {
        Numbers { table, tokens }
    }

    // The fault at the token with a number.
    fn fault(&self, kind: FaultKind, number: usize) -> Fault {
        match self.tokens.get(number) {
            Some(token) => Fault::at(kind, token),
            None => Fault {
                kind,
                line: 1,
                column: 1,
            },
        }
    }
}

impl SemanticActions for Numbers<'_> {
    type Value = i64;

    type Stop = Fault;

    fn shift(&mut self, position: usize, _bit: u32) -> Result<i64, Fault> {
        match self.tokens.get(position) {
            Some(token) => Ok(token.value),
            None => Err(self.fault(FaultKind::NoValue, position)),
        }
    }

    fn reduce(
        &mut self,
        production: u32,
        values: &mut Vec<i64>,
        first: usize,
        _end: usize,
    ) -> Result<i64, Fault> {
        let Some(production) = self.table.productions().get(production as usize) else {
            return Err(self.fault(FaultKind::NoValue, first));
        };
        match worth(production.action.index(), values.as_slice()) {
            Ok(value) => Ok(value),
            Err(kind) => Err(self.fault(kind, first)),
        }
    }
}

// What the right side of the production with an action is worth.
fn worth(action: usize, values: &[i64]) -> Result<i64, FaultKind> {
    match (action, values) {
        (1, [left, _, right]) => left.checked_add(*right).ok_or(FaultKind::TooLarge),
        (2, [left, _, right]) => left.checked_sub(*right).ok_or(FaultKind::TooLarge),
        (4, [left, _, right]) => left.checked_mul(*right).ok_or(FaultKind::TooLarge),
        (5, [_, _, 0]) => Err(FaultKind::DivisionByZero),
        (5, [left, _, right]) => left.checked_div(*right).ok_or(FaultKind::TooLarge),
        (8, [_, inner, _]) => Ok(*inner),
        (9, [_, value]) => value.checked_neg().ok_or(FaultKind::TooLarge),
        (_, [value]) => Ok(*value),
        _ => Err(FaultKind::NoValue),
    }
}
