//! The arrays of a file, with their names and comments.
ghost use Rattle.std.specs.Prelude.{◌≡◌, ◌++◌, ◌∷◌, [], IfOk, OnOk, string_bytes};
ghost use Rattle.parser_text.specs.FileArrays.{array_name, array_of, array_parts, cell_arrays, file_arrays, goto_arrays, parts_of, reduction_arrays, side_arrays};

use file_parts::parts::Array;
use packed_tables::packed::PackedTables;
use std::alloc::{AllocError, Global};

/// The arrays of packed tables, and those of the sides of productions. The names are in capitals, or
/// in small letters. An error is an allocation failure.
pub(crate) fn file_arrays(
    alloc: Global,
    capitals: bool,
    packed: &PackedTables,
    left: &[u32],
    lengths: &[u32],
) -> Result<Vec<Array>, AllocError>
    ensures { IfOk result (λ arrays. parts_of arrays.items ≡
        file_arrays capitals packed.now left.now lengths.now) }
{
    let mut arrays = Vec::new(alloc);
    push_cells(alloc, capitals, &mut arrays, packed)?;
    push_reductions(alloc, capitals, &mut arrays, packed)?;
    push_gotos(alloc, capitals, &mut arrays, packed)?;
    push_sides(alloc, capitals, &mut arrays, left, lengths)?;
    Ok(arrays)
}

// Appends the arrays of the cells of actions.
fn push_cells(
    alloc: Global,
    capitals: bool,
    arrays: &mut Vec<Array>,
    packed: &PackedTables,
) -> Result<(), AllocError>
    ensures { OnOk result (parts_of arrays.new.items ≡
        parts_of arrays.old.items ++ cell_arrays capitals packed.now) }
{
    let row = "where the row of a state begins in the next two arrays";
    push(alloc, capitals, arrays, "row", row, &packed.actions.row)?;
    let column = "the terminal to which a cell belongs";
    push(
        alloc,
        capitals,
        arrays,
        "column",
        column,
        &packed.actions.column,
    )?;
    let cell = "the action in a cell";
    push(alloc, capitals, arrays, "cell", cell, &packed.actions.cell)?;
    Ok(())
}

// Appends the arrays of the usual reductions of states.
fn push_reductions(
    alloc: Global,
    capitals: bool,
    arrays: &mut Vec<Array>,
    packed: &PackedTables,
) -> Result<(), AllocError>
    ensures { OnOk result (parts_of arrays.new.items ≡
        parts_of arrays.old.items ++ reduction_arrays capitals packed.now) }
{
    let reduction = "the usual reduction of a state, as an action, or 0";
    push(
        alloc,
        capitals,
        arrays,
        "reduction",
        reduction,
        &packed.reduction,
    )?;
    let set = "the set of the terminals on which a state makes its usual reduction";
    push(alloc, capitals, arrays, "set", set, &packed.set)?;
    let numbers = numbers_of(alloc, &packed.sets)?;
    let sets = "the sets, by their bits: the lowest bit of a byte is of the first terminal";
    push(alloc, capitals, arrays, "sets", sets, &numbers)?;
    Ok(())
}

// Appends the arrays of gotos.
fn push_gotos(
    alloc: Global,
    capitals: bool,
    arrays: &mut Vec<Array>,
    packed: &PackedTables,
) -> Result<(), AllocError>
    ensures { OnOk result (parts_of arrays.new.items ≡
        parts_of arrays.old.items ++ goto_arrays capitals packed.now) }
{
    let row = "where the row of a state begins in the next two arrays";
    push(alloc, capitals, arrays, "goto_row", row, &packed.gotos.row)?;
    let column = "the nonterminal to which a cell belongs";
    push(
        alloc,
        capitals,
        arrays,
        "goto_column",
        column,
        &packed.gotos.column,
    )?;
    let cell = "the state to which a goto leads";
    push(
        alloc,
        capitals,
        arrays,
        "goto_cell",
        cell,
        &packed.gotos.cell,
    )?;
    let usual = "where the gotos on a nonterminal lead in most states";
    push(
        alloc,
        capitals,
        arrays,
        "goto_usual",
        usual,
        &packed.goto_usual,
    )?;
    Ok(())
}

// Appends the arrays of the sides of productions.
fn push_sides(
    alloc: Global,
    capitals: bool,
    arrays: &mut Vec<Array>,
    left: &[u32],
    lengths: &[u32],
) -> Result<(), AllocError>
    ensures { OnOk result (parts_of arrays.new.items ≡
        parts_of arrays.old.items ++ side_arrays capitals left.now lengths.now) }
{
    push(
        alloc,
        capitals,
        arrays,
        "left",
        "the nonterminal of a production",
        left,
    )?;
    let length = "how many symbols the right side of a production has";
    push(alloc, capitals, arrays, "length", length, lengths)?;
    Ok(())
}

// Appends an array.
fn push(
    alloc: Global,
    capitals: bool,
    arrays: &mut Vec<Array>,
    name: &str,
    comment: &str,
    numbers: &[u32],
) -> Result<(), AllocError>
    ensures { OnOk result (parts_of arrays.new.items ≡ parts_of arrays.old.items
        ++ array_of capitals name.now comment.now numbers.now ∷ []) }
{
    arrays.push(array(alloc, capitals, name, comment, numbers)?)?;
    Ok(())
}

// An array with a name, a comment and numbers.
fn array(
    alloc: Global,
    capitals: bool,
    name: &str,
    comment: &str,
    numbers: &[u32],
) -> Result<Array, AllocError>
    ensures { IfOk result (λ array. array_parts array ≡
        array_of capitals name.now comment.now numbers.now) }
{
    Ok(Array {
        name: array_name(alloc, capitals, name)?,
        comment: String::from_str(alloc, comment)?,
        numbers: Vec::from_slice(alloc, numbers)?,
    })
}

// The name of an array, in capitals or as it is.
fn array_name(alloc: Global, capitals: bool, name: &str) -> Result<String, AllocError>
    ensures { IfOk result (λ text. string_bytes text ≡ array_name capitals name.now) }
{
    let mut text = String::from_str(alloc, name)?;
    if capitals {
        text.make_ascii_uppercase();
    }
    Ok(text)
}

// Bytes as numbers.
fn numbers_of(alloc: Global, bytes: &[u8]) -> Result<Vec<u32>, AllocError>
    ensures { IfOk result (λ numbers. numbers.items ≡ bytes.now) }
{
    let mut numbers = Vec::new(alloc);
    for byte in bytes {
        numbers.push(u32::from(*byte))?;
    }
    Ok(numbers)
}
