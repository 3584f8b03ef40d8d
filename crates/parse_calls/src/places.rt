//! What a list of numbers has at its places. The list may be any.
ghost use Rattle.std.specs.Prelude.{◌≡◌, ◌+◌, ◌≤◌, None, Some, IfSome, MatchOption, length, slice_get};
ghost use Rattle.parse_calls.specs.Places.{block_at, block_of, counted_at, counts_of, part, set_of, side_of};

/// The mark of tables, which is their first number.
const MARK: u32 = 1280454996;

/// The version of the layout.
const VERSION: u32 = 1;

/// How many lists of items, terminals, nonterminals, productions, token sets and states tables have.
#[derive(Clone, Copy)]
pub struct Counts {
    pub lists: u32,
    pub terminals: u32,
    pub nonterminals: u32,
    pub productions: u32,
    pub sets: u32,
    pub states: u32,
}

/// The shifts, gotos and reductions of a state, each as the numbers of pairs.
#[derive(Clone, Copy)]
pub(crate) struct Block<'n> {
    pub(crate) shifts: &'n [u32],
    pub(crate) gotos: &'n [u32],
    pub(crate) reductions: &'n [u32],
}

/// The counts of the head, if the list begins as tables do.
pub(crate) fn counts_of(numbers: &[u32]) -> Option<Counts>
    ensures { result ≡ counts_of numbers.now }
{
    if numbers.len() < 8 {
        return None;
    }
    if numbers[0] != MARK || numbers[1] != VERSION {
        return None;
    }
    Some(Counts {
        lists: numbers[2],
        terminals: numbers[3],
        nonterminals: numbers[4],
        productions: numbers[5],
        sets: numbers[6],
        states: numbers[7],
    })
}

// So many numbers from a place on, if the list has them.
fn part(numbers: &[u32], place: usize, count: usize) -> Option<&[u32]>
    ensures exact { MatchOption result (part numbers.now place count ≡ None)
        (λ found. part numbers.now place count ≡ Some found.now) }
    ensures within { IfSome result (λ found. place + length found.now ≤ length numbers.now) }
{
    if numbers.len() < place {
        return None;
    }
    if numbers.len() - place < count {
        return None;
    }
    Some(&numbers[place..place + count])
}

// The numbers of a counted list at a place, of which each item has so many numbers.
fn counted_at(numbers: &[u32], place: usize, each: usize) -> Option<&[u32]>
    requires { each ≤ 2 }
    ensures exact { MatchOption result (counted_at each numbers.now place ≡ None)
        (λ found. counted_at each numbers.now place ≡ Some found.now) }
    ensures within { IfSome result
        (λ found. place + 1 + length found.now ≤ length numbers.now) }
{
    let Some(count) = number_at(numbers, place) else {
        return None;
    };
    part(numbers, place + 1, each * count as usize)
}

/// The number at a place, if the list has one.
pub(crate) fn number_at(numbers: &[u32], place: usize) -> Option<u32>
    ensures { result ≡ slice_get numbers.now place }
{
    numbers.get(place).copied()
}

// The lists of the state whose block is at a place.
fn block_at(numbers: &[u32], place: usize) -> Option<Block<'_>>
    ensures { MatchOption result (block_at numbers.now (Some place) ≡ None)
        (λ block. block_at numbers.now (Some place) ≡ Some (record {
          shifts = block.shifts.now;
          gotos = block.gotos.now;
          reductions = block.reductions.now;
        })) }
{
    let Some(shifts) = counted_at(numbers, place, 2) else {
        return None;
    };
    let second = place + 1 + shifts.len();
    let Some(gotos) = counted_at(numbers, second, 2) else {
        return None;
    };
    let third = second + 1 + gotos.len();
    let Some(reductions) = counted_at(numbers, third, 2) else {
        return None;
    };
    Some(Block {
        shifts,
        gotos,
        reductions,
    })
}

/// The lists of the state with a number, if there is one.
pub(crate) fn block_of(numbers: &[u32], counts: Counts, state: u32) -> Option<Block<'_>>
    ensures { MatchOption result (block_of numbers.now counts state ≡ None)
        (λ block. block_of numbers.now counts state ≡ Some (record {
          shifts = block.shifts.now;
          gotos = block.gotos.now;
          reductions = block.reductions.now;
        })) }
{
    if state >= counts.states {
        return None;
    }
    let Some(place) = number_at(numbers, 8 + counts.sets as usize + state as usize) else {
        return None;
    };
    block_at(numbers, place as usize)
}

/// The tokens of the set with a number, if there is one.
pub(crate) fn set_of(numbers: &[u32], counts: Counts, set: u32) -> Option<&[u32]>
    ensures { MatchOption result (set_of numbers.now counts set ≡ None)
        (λ tokens. set_of numbers.now counts set ≡ Some tokens.now) }
{
    if set >= counts.sets {
        return None;
    }
    let Some(place) = number_at(numbers, 8 + set as usize) else {
        return None;
    };
    counted_at(numbers, place as usize, 1)
}

/// The nonterminal of the production with a number and the length of its right side, if there is
/// one.
pub(crate) fn side_of(numbers: &[u32], counts: Counts, production: u32) -> Option<(u32, u32)>
    ensures { result ≡ side_of numbers.now counts production }
{
    if production >= counts.productions {
        return None;
    }
    let sides = 8 + counts.sets as usize + counts.states as usize + counts.lists as usize;
    let place = sides + 2 * production as usize;
    let Some(name) = number_at(numbers, place) else {
        return None;
    };
    let Some(len) = number_at(numbers, place + 1) else {
        return None;
    };
    Some((name, len))
}
