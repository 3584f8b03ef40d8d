//! The driver for C.

/// A run and its steps. It is the same in each file, but for the prefixes of names.
pub(crate) const DRIVER: &str =
    r##"// A place of the stack: a state, and the position at which the symbol after it begins.
typedef struct {
    size_t first;
    uint32_t state;
} @entry;

// A run. Its members are 0 at the beginning, except for example
// `@run run = {.resize = realloc, .left = SIZE_MAX};`. Free `stack` in the end.
typedef struct {
    void *(*resize)(void *stack, size_t bytes); // makes the stack larger, or is NULL
    @entry *stack;                            // the entries below the state
    size_t room, depth;                         // how many entries fit, and how many there are
    size_t position;                            // how many terminals were read
    size_t left;                                // how many steps may be made
    uint32_t state;
} @run;

// What takes the steps of a run. A result other than 0 stops the run. A reduction has the terminals
// from the position `first` up to `end`, without `end`.
typedef struct {
    void *context;
    int (*shift)(void *context, size_t position, @terminal terminal);
    int (*reduce)(void *context, @production production, size_t first, size_t end);
} @handler;

typedef enum {
    $GOES_ON,  // the terminal was shifted
    $ACCEPTED, // the input is a sentence
    $REFUSED,  // the terminal at `position` is wrong
    $LIMIT,    // no step was left
    $STOPPED,  // the handler stopped the run
    $NO_ROOM   // the stack could not be made larger
} @result;

// A run on a terminal that is not shifted yet. Of the stack, the first `base` entries are in force,
// and after them `fresh` ones that are above those of the run. So the run is kept.
typedef struct {
    size_t base, fresh, left;
    uint32_t state, action;
} @trial;

// Writes an entry of the stack. Returns 0 if there is no room for it.
static inline int @put(@run *run, size_t place, uint32_t state, size_t first)
{
    if (place >= run->room) {
        size_t room = place < 32 ? 64 : 2 * place;
        if (run->resize == NULL || room > SIZE_MAX / sizeof(@entry))
            return 0;
        @entry *stack = (@entry *)run->resize(run->stack, room * sizeof(@entry));
        if (stack == NULL)
            return 0;
        run->stack = stack;
        run->room = room;
    }
    run->stack[place].state = state;
    run->stack[place].first = first;
    return 1;
}

// Makes the reductions on a terminal. A handler that is NULL takes no steps.
static inline @result @reduce_all(@run *run, const @handler *handler, uint32_t terminal, @trial *trial)
{
    while ((trial->action = @action_of(trial->state, terminal)) - 1 < $PRODUCTIONS) {
        uint32_t production = trial->action - 1;
        size_t length = @tables.length[production], place;
        if (trial->left == 0)
            return $LIMIT;
        trial->left--;
        if (length > trial->fresh) {
            place = trial->base - (length - trial->fresh);
            trial->base = place + 1;
            trial->fresh = 0;
        } else {
            trial->fresh -= length;
            place = run->depth + trial->fresh++;
            if (length == 0 && !@put(run, place, trial->state, run->position))
                return $NO_ROOM;
        }
        @entry entry = run->stack[place];
        if (handler && handler->reduce(handler->context, (@production)production, entry.first, run->position))
            return $STOPPED;
        trial->state = @goto_of(entry.state, @tables.left[production]);
        if (trial->state == 0)
            return terminal == $T_END ? $ACCEPTED : $REFUSED;
    }
    if (trial->action == 0)
        return $REFUSED;
    return terminal == $T_END ? $ACCEPTED : $GOES_ON;
}

// Reads a terminal, or the end of the input. After a refusal the run is as before. But the handler
// may have taken reductions.
static inline @result @push(@run *run, const @handler *handler, @terminal terminal)
{
    @trial trial = {run->depth, 0, run->left, run->state, 0};
    if ((uint32_t)terminal > $T_END)
        return $REFUSED;
    @result result = @reduce_all(run, handler, (uint32_t)terminal, &trial);
    if (result != $GOES_ON)
        return result;
    if (trial.left == 0)
        return $LIMIT;
    if (handler && handler->shift(handler->context, run->position, terminal))
        return $STOPPED;
    for (size_t place = run->depth; trial.fresh > 0; trial.fresh--)
        run->stack[trial.base++] = run->stack[place++];
    if (!@put(run, trial.base, trial.state, run->position))
        return $NO_ROOM;
    run->depth = trial.base + 1;
    run->state = trial.action - $PRODUCTIONS - 1;
    run->left = trial.left - 1;
    run->position++;
    return $GOES_ON;
}

// Reads what `next` returns, up to the end of the input.
static inline @result @parse(@run *run, const @handler *handler, @terminal (*next)(void *context))
{
    @result result;
    do
        result = @push(run, handler, next(handler->context));
    while (result == $GOES_ON);
    return result;
}

// Lists the terminals that may come next in the steps that are left, each after a trial, and
// $T_END if the input may end. Returns how many they are: at most $TERMINALS.
static inline size_t @expected(@run *run, @terminal *expected)
{
    size_t count = 0;
    for (uint32_t terminal = 0; terminal < $TERMINALS; terminal++) {
        @trial trial = {run->depth, 0, run->left, run->state, 0};
        @result result = @reduce_all(run, NULL, terminal, &trial);
        if (result == $ACCEPTED || (result == $GOES_ON && trial.left > 0))
            expected[count++] = (@terminal)terminal;
    }
    return count;
}
"##;
