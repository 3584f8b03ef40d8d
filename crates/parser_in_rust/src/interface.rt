//! The interface and the lookups for Rust.

/// The lookup of an action and of a goto.
pub(crate) const LOOKUP: &str = r##"/// The action of a state on a terminal.
#[inline(always)]
fn action_of(state: usize, terminal: usize) -> Action {
    let place = TABLES.row[state] as usize + terminal;
    if TABLES.column[place] as usize == terminal {
        return Action::of(TABLES.cell[place] as usize);
    }
    let set = TABLES.sets[TABLES.set[state] as usize * SET_BYTES + terminal / 8];
    if set.rotate_right(terminal as u32) & 1 == 1 {
        return Action::of_reduction(TABLES.reduction[state] as usize);
    }
    Action::Refuse
}

/// Where the gotos of a state begin.
fn gotos_of(state: usize) -> usize {
    TABLES.goto_row[state] as usize
}

/// The state to which one of these gotos leads, or nothing if there is none.
#[inline(always)]
fn goto_of(gotos: usize, nonterminal: usize) -> Option<usize> {
    let place = gotos + nonterminal;
    if TABLES.goto_column[place] as usize == nonterminal {
        return Some(TABLES.goto_cell[place] as usize);
    }
    match TABLES.goto_usual[nonterminal] {
        0 => None,
        state => Some(state as usize),
    }
}
"##;

/// The methods of constants, the handler, the errors, and a run.
pub(crate) const INTERFACE: &str = r##"impl Terminal {
    /// The text of the terminal.
    pub fn text(self) -> &'static str {
        TERMINAL_TEXTS[self as usize]
    }
}

impl Nonterminal {
    /// The name of the nonterminal.
    pub fn text(self) -> &'static str {
        NONTERMINAL_TEXTS[self as usize]
    }
}

impl Production {
    /// The nonterminal on the left side.
    pub fn left(self) -> Nonterminal {
        NONTERMINALS[TABLES.left[self as usize] as usize]
    }

    /// How many symbols the right side has.
    pub fn length(self) -> usize {
        TABLES.length[self as usize] as usize
    }
}

/// What takes the steps of a run.
pub trait Handler {
    /// Why a run is stopped.
    type Stop;

    /// Takes the shift of a terminal at a position of the input.
    fn shift(&mut self, position: usize, token: Terminal) -> Result<(), Self::Stop>;

    /// Takes a reduction. It has the terminals from the position `first` up to `end`, without `end`.
    fn reduce(&mut self, by: Production, first: usize, end: usize) -> Result<(), Self::Stop>;
}

/// Why a run ends without a parse.
#[derive(Clone, Debug, PartialEq, Eq)]
pub enum Error<Stop> {
    /// The terminal at a position is wrong. The list has those that may be there.
    Refused(usize, Terminal, Vec<Terminal>),
    /// No step was left.
    Limit,
    /// The handler stopped the run.
    Stopped(Stop),
}

impl<Stop> Error<Stop> {
    /// What is wrong, as a message.
    pub fn message(&self) -> String {
        match self {
            Error::Refused(position, token, expected) => {
                let texts: Vec<_> = expected.iter().map(|it| it.text()).collect();
                let (number, text, texts) = (position + 1, token.text(), texts.join(" "));
                format!("token {number}, {text}, is wrong; expected: {texts}")
            }
            Error::Limit => "the parse needs more steps than the limit allows".into(),
            Error::Stopped(_) => "the parse was stopped".into(),
        }
    }
}

/// A run that is given one terminal after the other.
#[derive(Clone, Debug)]
pub struct Run {
    stack: Vec<Entry>,
    /// Entries over which reductions on a terminal wrote. They are of the run until it is shifted.
    kept: Vec<Entry>,
    at: At,
}

impl Run {
    /// A run that makes at most so many steps: each shift and each reduction is one.
    pub fn new(limit: Option<usize>) -> Run {
        let (stack, kept, last) = (Vec::new(), Vec::new(), limit.unwrap_or(usize::MAX));
        #[rustfmt::skip]
        let at = At { state: 0, depth: 0, position: 0, last };
        Run { stack, kept, at }
    }

    /// Reads a terminal, or the end of the input. Returns whether the input is accepted. After a
    /// refusal the run is as before. But the handler may have taken reductions.
    pub fn push<H: Handler>(
        &mut self,
        token: Terminal,
        to: &mut H,
    ) -> Result<bool, Error<H::Stop>> {
        self.read(core::iter::once(token), to)
    }

    /// The terminals that may come next in the steps that are left, each after a trial.
    #[cold]
    pub fn expected(&mut self) -> Vec<Terminal> {
        let may_follow = |token: &Terminal| {
            self.undo();
            let mut at = self.at;
            let target = self.reduce_all(&mut at, *token, |_, _, _| Ok::<(), ()>(()));
            matches!(target, Ok(Some(target)) if target == 0 || at.position < at.last)
        };
        TERMINALS.iter().copied().filter(may_follow).collect()
    }
}
"##;
