//! What faults mean, and what to do.
ghost use Rattle.std.specs.Prelude.{◌≡◌, ◌++◌, IfOk, OnOk, string_bytes};
ghost use Rattle.dpbr_cli.specs.Explaining.{explanation, is_fault, is_in_rows, row_part, row_text, rows_text, text_now};

use crate::fault_table::FAULTS;
use std::alloc::{AllocError, Global};

/// The rows of the table with this number, as text.
pub fn explanation(alloc: Global, number: u16) -> Result<String, AllocError>
    ensures { IfOk result (λ text. string_bytes text ≡ explanation number) }
{
    rows_text(alloc, FAULTS.as_slice(), number)
}

/// Whether a fault has this number.
pub fn is_fault(number: u16) -> bool
    ensures { result ≡ is_fault number }
{
    is_in_rows(FAULTS.as_slice(), number)
}

/// Whether a row has this number.
fn is_in_rows(rows: &[(u16, &str, &str)], number: u16) -> bool
    ensures { result ≡ is_in_rows rows.now number }
{
    rows.iter().any(|row| row.0 == number)
}

/// The rows with this number, as text.
fn rows_text(alloc: Global, rows: &[(u16, &str, &str)], number: u16) -> Result<String, AllocError>
    ensures { IfOk result (λ text. string_bytes text ≡ rows_text text_now rows.now number) }
{
    let mut text = String::new(alloc);
    for row in rows {
        put_row(alloc, &mut text, row, number)?;
    }
    Ok(text)
}

/// Appends the row as text, if it has this number.
fn put_row(
    alloc: Global,
    text: &mut String,
    row: &(u16, &str, &str),
    number: u16,
) -> Result<(), AllocError>
    ensures { OnOk result (string_bytes text.new
        ≡ string_bytes text.old ++ row_part text_now row.now number) }
{
    if row.0 == number {
        let line = row_text(alloc, row)?;
        text.push_str(line.as_str())?;
    }
    Ok(())
}

/// A row as text: a line with the number and the cause, and an indented one with what to do.
fn row_text(alloc: Global, row: &(u16, &str, &str)) -> Result<String, AllocError>
    ensures { IfOk result (λ text. string_bytes text ≡ row_text text_now row.now) }
{
    let (number, cause, advice) = *row;
    format!(in alloc; "fault {number}: {cause}.\n    {advice}\n")
}
