//! What uses LR(1) tables: the main contract, the parser, examples that explain conflicts, the
//! report and the inliner. This crate passes on the modules of six smaller crates. What most callers
//! need can be named without its module, as in `use lalrpop_lr1::{ParseTree, parse};`.
//!
//! - `headline`: the main contract. It builds tables, and parses by them.
//! - Of `lalrpop_ambiguity`: `derivation`, `search` and `witness`, witnesses of ambiguity.
//! - Of `lalrpop_explain`: `explain`, conflicts with examples of how their actions come about.
//! - Of `lalrpop_inline`: `inline`, the inliner.
//! - Of `lalrpop_parser`: `interpret`, the parser and its trees.
//! - Of `lalrpop_report`: `report`, the report of a construction.
//! - Of `lalrpop_traces`: `trace`, examples of input that lead to a conflict.
#![tactic(auto)]

pub mod headline;

pub use headline::any_start::{AugmentedGrammar, parse_from_any};
pub use headline::by_tables::parse_by_tables;
pub use headline::{ParseError, parse};
pub use lalrpop_ambiguity::derivation::Derivation;
pub use lalrpop_ambiguity::search::{AmbiguityFinder, Search, find_ambiguity};
pub use lalrpop_ambiguity::witness::{Ambiguity, is_witness};
pub use lalrpop_ambiguity::{derivation, search, witness};
pub use lalrpop_explain::explain;
pub use lalrpop_explain::explain::{ExplainedConflict, ExplainedItem, Explainer, is_own_error};
pub use lalrpop_inline::inline;
pub use lalrpop_parser::interpret;
pub use lalrpop_parser::interpret::{InterpretError, ParseTree};
pub use lalrpop_report::report;
pub use lalrpop_report::report::{ReportError, report_text};
pub use lalrpop_traces::trace;
pub use lalrpop_traces::trace::{Example, ExampleSymbol, TraceGraph, Tracer};
