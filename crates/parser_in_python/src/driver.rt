//! The driver for Python, and its lookups.

/// The handler, the errors, and a run.
pub(crate) const DRIVER: &str = r##"class Handler(Protocol):
    """What takes the steps of a run. An exception of its own stops the run."""

    def shift(self, position: int, terminal: Terminal) -> None:
        """Takes the shift of a terminal at a position of the input."""

    def reduce(self, production: Production, first: int, end: int) -> None:
        """Takes a reduction, of the terminals from the position first up to end."""


class ParseError(Exception):
    """Why a run ends without a parse."""


class LimitError(ParseError):
    """No step was left."""


class RefusedError(ParseError):
    """A terminal is wrong: its position, the terminal, and those that may be there."""

    def __init__(
        self, position: int, terminal: Terminal, expected: list[Terminal]
    ) -> None:
        texts = " ".join(it.text for it in expected)
        super().__init__(
            f"token {position + 1}, {terminal.text}, is wrong; expected: {texts}"
        )
        self.position = position
        self.terminal = terminal
        self.expected = expected


class Run:
    """A run that is given one terminal after the other.

    It makes at most so many steps: each shift and each reduction is one. Its stack has the
    states below its own, each with the position at which the symbol after it begins.
    """

    def __init__(self, limit: Optional[int] = None) -> None:
        self.position = 0
        self.left = sys.maxsize if limit is None else limit
        self._state = 0
        self._stack: list[tuple[int, int]] = []

    def push(self, terminal: int, handler: Handler) -> bool:
        """Reads a terminal, or the end of the input. Returns whether the input is accepted.

        After a refusal the run is as before. But the handler may have taken reductions.
        """
        if not 0 <= terminal <= Terminal.END:
            raise ValueError(f"there is no terminal {terminal}")
        trial = _Trial(self)
        target = trial.reduce_all(terminal, handler)
        if target is None:
            raise RefusedError(self.position, _TERMINALS[terminal], self.expected())
        if target == 0:
            return True
        if trial.left == 0:
            raise LimitError("the parse needs more steps than the limit allows")
        handler.shift(self.position, _TERMINALS[terminal])
        self._stack[trial.base :] = trial.fresh
        self._stack.append((trial.state, self.position))
        self._state = target
        self.left = trial.left - 1
        self.position += 1
        return False

    def expected(self) -> list[Terminal]:
        """The terminals that may come next in the steps that are left, after trials."""
        return [terminal for terminal in _TERMINALS if self._may_follow(terminal)]

    def _may_follow(self, terminal: int) -> bool:
        trial = _Trial(self)
        try:
            target = trial.reduce_all(terminal, None)
        except LimitError:
            return False
        return target == 0 or (target is not None and trial.left > 0)


class _Trial:
    """A run on a terminal that is not shifted yet.

    Of the stack, the first base entries are in force, and the fresh ones after them. So the
    stack of the run is kept.
    """

    def __init__(self, run: Run) -> None:
        self.stack = run._stack
        self.base = len(self.stack)
        self.fresh: list[tuple[int, int]] = []
        self.state = run._state
        self.position = run.position
        self.left = run.left

    def reduce_all(self, terminal: int, handler: Optional[Handler]) -> Optional[int]:
        """Makes the reductions on a terminal.

        Returns the state to which it is shifted, 0 if the input is accepted, or None if the
        terminal is refused.
        """
        while True:
            action = _action_of(self.state, terminal)
            if action > len(_PRODUCTIONS):
                return action - len(_PRODUCTIONS) - 1
            if action == 0:
                return None
            if self.left == 0:
                raise LimitError("the parse needs more steps than the limit allows")
            self.left -= 1
            below, first = self._pop(_LENGTH[action - 1])
            if handler is not None:
                handler.reduce(_PRODUCTIONS[action - 1], first, self.position)
            self.state = _goto_of(below, _LEFT[action - 1])
            if self.state == 0:
                return 0

    def _pop(self, length: int) -> tuple[int, int]:
        """Pops the entries of a right side but the first one, which is returned.

        An empty right side has none, and so one is pushed.
        """
        if length > len(self.fresh):
            self.base -= length - len(self.fresh) - 1
            self.fresh.clear()
            return self.stack[self.base - 1]
        if length == 0:
            self.fresh.append((self.state, self.position))
        else:
            del self.fresh[len(self.fresh) - length + 1 :]
        return self.fresh[-1]


def parse(
    terminals: Iterable[int], handler: Handler, limit: Optional[int] = None
) -> None:
    """Parses terminals, up to their end or the first Terminal.END, in so many steps."""
    run = Run(limit)
    for terminal in terminals:
        if run.push(terminal, handler):
            return
    run.push(Terminal.END, handler)
"##;

/// The lookup of an action and of a goto.
pub(crate) const LOOKUP: &str = r##"def _action_of(state: int, terminal: int) -> int:
    """The action of a state on a terminal.

    0 refuses it, a number up to that of productions reduces by the production before it, and
    a larger one shifts. A shift to state 0 accepts the input.
    """
    place = _ROW[state] + terminal
    if _COLUMN[place] == terminal:
        return _CELL[place]
    if _SETS[_SET[state] * _SET_BYTES + terminal // 8] >> terminal % 8 & 1:
        return _REDUCTION[state]
    return 0


def _goto_of(state: int, nonterminal: int) -> int:
    """The state to which the goto of a state leads, or 0 if there is none."""
    place = _GOTO_ROW[state] + nonterminal
    if _GOTO_COLUMN[place] == nonterminal:
        return _GOTO_CELL[place]
    return _GOTO_USUAL[nonterminal]
"##;
