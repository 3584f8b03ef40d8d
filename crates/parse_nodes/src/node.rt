//! A node of a parse tree.
ghost use Rattle.std.specs.Prelude.{◌≡◌, ◌↔◌, IsTrue};
ghost use Rattle.parse_nodes.specs.Nodes.{IsTerminalNode};

/// A node: a terminal, or a production over the nodes of its children, which stand before it.
#[derive(Clone, Copy, Debug, PartialEq, Eq)]
pub struct ParseNode {
    pub(crate) label: u32,
    pub(crate) size: u32,
    pub(crate) first: u32,
    pub(crate) end: u32,
}

impl ParseNode {
    /// The bit of the terminal, or the number of the production.
    pub fn label(&self) -> u32
        ensures { result ≡ self.now.label }
    {
        self.label
    }

    /// How many nodes the tree of this root has, with the root.
    pub fn size(&self) -> u32
        ensures { result ≡ self.now.size }
    {
        self.size
    }

    /// The position of the first terminal of the tree.
    pub fn first(&self) -> u32
        ensures { result ≡ self.now.first }
    {
        self.first
    }

    /// The position after the last terminal of the tree.
    pub fn end(&self) -> u32
        ensures { result ≡ self.now.end }
    {
        self.end
    }

    /// Whether it is a terminal. A production without children has no terminals.
    pub fn is_terminal(&self) -> bool
        ensures { IsTrue result ↔ IsTerminalNode self.now }
    {
        let has_position = self.first != self.end;
        has_position && self.size == 1
    }
}
