//! The parser. It parses lists of terminals by LR(1) states. Its trees are printed, copied and
//! dropped without recursion. They are compared without recursion, too, unless an allocation fails.
//!
//! - `interpret`: the parser, its trees and its errors.
#![tactic(auto)]

pub mod interpret;
