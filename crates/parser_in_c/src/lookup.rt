//! The lookups for C, and the functions for texts and sides.

/// The lookup of an action and of a goto.
pub(crate) const LOOKUP: &str =
    r##"// The action of a state on a terminal: 0 refuses it, a number up to $PRODUCTIONS reduces by the
// production before it, and a larger one shifts. A shift to state 0 accepts the input.
static inline uint32_t @action_of(uint32_t state, uint32_t terminal)
{
    uint32_t place = @tables.row[state] + terminal;
    if (@tables.column[place] == terminal)
        return @tables.cell[place];
    if (@tables.sets[(uint32_t)@tables.set[state] * $SET_BYTES + terminal / 8] >> terminal % 8 & 1)
        return @tables.reduction[state];
    return 0;
}

// The state to which the goto of a state leads, or 0 if there is none.
static inline uint32_t @goto_of(uint32_t state, uint32_t nonterminal)
{
    uint32_t place = @tables.goto_row[state] + nonterminal;
    return @tables.goto_column[place] == nonterminal ? @tables.goto_cell[place] : @tables.goto_usual[nonterminal];
}
"##;

/// The text of a symbol, and the sides of a production.
pub(crate) const INTERFACE: &str = r##"static inline const char *@terminal_text(@terminal terminal)
{
    return @terminal_texts[terminal];
}

static inline const char *@nonterminal_text(@nonterminal nonterminal)
{
    return @nonterminal_texts[nonterminal];
}

static inline @nonterminal @left_side(@production production)
{
    return (@nonterminal)@tables.left[production];
}

static inline size_t @right_length(@production production)
{
    return @tables.length[production];
}
"##;
