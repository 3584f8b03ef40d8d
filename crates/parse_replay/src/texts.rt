//! The texts of trees, refusals and expected tokens.
use lalrpop_base::lookahead::token_set::TokenSet;
use lalrpop_base::memory::OutOfMemory;
use lalrpop_base::repr::TerminalString;
use lalrpop_base::repr::terminals::TerminalSet;
use parse_nodes::tree::ParseNodes;
use parse_tables::table::ParseTable;
use std::alloc::Global;

/// The text for a refused token, which is given by its position. The end of the input is after all
/// tokens.
pub fn refused_text(
    alloc: Global,
    tokens: &[TerminalString],
    position: usize,
) -> Result<String, OutOfMemory> {
    match tokens.get(position) {
        Some(token) => Ok(format!(in alloc; "refused at {token}\n")?),
        None => Ok(String::from_str(alloc, "refused at Eof\n")?),
    }
}

/// The text of a set of tokens, by ascending bit, each in a line.
pub fn expected_text(
    alloc: Global,
    terminals: &TerminalSet,
    tokens: &TokenSet,
) -> Result<String, OutOfMemory> {
    let mut text = String::new(alloc);
    for token in tokens.iter(terminals) {
        write!(text, "{token}\n")?;
    }
    Ok(text)
}

/// The text of a tree, as that of a tree of `interpret`. No function recurses over the tree.
pub fn tree_text<'a>(
    alloc: Global,
    table: &'a ParseTable,
    tree: &'a ParseNodes,
) -> Result<String, OutOfMemory> {
    let mut writer = TreeWriter {
        alloc,
        table,
        tree,
        text: String::new(alloc),
        parts: Vec::new(alloc),
    };
    if let Some(root) = tree.root() {
        writer.parts.push(Part::Tree(root))?;
    }
    // A node has at most three parts: its tree, a comma before it, and its end.
    for _ in 0..tree.all().len().saturating_mul(3) {
        writer.write_next()?;
    }
    writer.text.push_str("\n")?;
    Ok(writer.text)
}

// A part of the text of a tree: the tree of the node with a number, a comma between two trees, or
// the end of a nonterminal.
#[derive(Clone, Copy)]
enum Part {
    Tree(usize),
    Comma,
    End,
}

// The text of a tree so far, and the parts that are left, the next one last.
#[derive(Drop)]
struct TreeWriter<'a> {
    alloc: Global,
    table: &'a ParseTable,
    tree: &'a ParseNodes,
    text: String,
    parts: Vec<Part>,
}

impl<'a> TreeWriter<'a> {
    // Writes the next part, if there is one.
    fn write_next(&mut self) -> Result<(), OutOfMemory> {
        match self.parts.pop() {
            Some(Part::Tree(number)) => self.write_tree(number)?,
            Some(Part::Comma) => self.text.push_str(", ")?,
            Some(Part::End) => self.text.push_str("]")?,
            None => {}
        }
        Ok(())
    }

    // Writes a terminal, or the beginning of a nonterminal, whose other parts are then left.
    fn write_tree(&mut self, number: usize) -> Result<(), OutOfMemory> {
        let tree = self.tree;
        let Some(node) = tree.node(number) else {
            return Ok(());
        };
        if node.is_terminal() {
            return self.write_terminal(node.label() as usize);
        }
        self.write_nonterminal(node.label() as usize)?;
        let children = tree.children(self.alloc, number)?;
        self.parts.push(Part::End)?;
        self.push_children(&children)
    }

    // Writes the terminal with a bit.
    fn write_terminal(&mut self, bit: usize) -> Result<(), OutOfMemory> {
        let table = self.table;
        if let Some(terminal) = table.terminals().all().get(bit) {
            write!(self.text, "{terminal}")?;
        }
        Ok(())
    }

    // Writes the beginning of the nonterminal of a production.
    fn write_nonterminal(&mut self, production: usize) -> Result<(), OutOfMemory> {
        let table = self.table;
        if let Some(production) = table.productions().get(production) {
            write!(self.text, "[{}: ", production.nonterminal)?;
        }
        Ok(())
    }

    // Adds the parts of trees beside one another.
    fn push_children(&mut self, children: &[usize]) -> Result<(), OutOfMemory> {
        let Some((first, others)) = children.split_first() else {
            return Ok(());
        };
        for child in others.iter().rev() {
            self.parts.push(Part::Tree(*child))?;
            self.parts.push(Part::Comma)?;
        }
        self.parts.push(Part::Tree(*first))?;
        Ok(())
    }
}
