ghost use Rattle.std.specs.Prelude.{◌≡◌, ◌++◌, All, false, map, IsOk, IfOk, IfSome, OnOk};
ghost use Rattle.std.specs.List.{flat_map};
ghost use Rattle.std.specs.Fmt.{signed_decimal};
ghost use Rattle.pt_value.specs.Cell.{lent};
ghost use Rattle.pt_value.specs.Text.{CanShow, shown};
ghost use Rattle.pt_expr.specs.Columns.{AreFitting};
ghost use Rattle.pt_expr.specs.Found.{checked};
ghost use Rattle.pt_expr.specs.Values.{whole_value};
ghost use Rattle.pt_checks.specs.Queries.{AreChecked};
ghost use Rattle.pt_checks.specs.Printed.{count_text, row_text, select_text, tab_at, texts_of, with_tabs};

use pt_ast::{Cells, Columns, Expr, Exprs, Row};
use pt_expr::eval;
use pt_value::{Bin, Cell, Value};
use std::alloc::{AllocError, Global};

/// What SELECT answers: a line for each row, and then how many they are.
pub fn select_text(
    alloc: Global,
    columns: &Columns,
    items: &Option<Exprs>,
    rows: &[Row],
) -> Result<Bin, AllocError>
    requires checked { IfSome items.now (AreChecked columns.now) }
    requires fitting { All (λ row. AreFitting columns.now row.cells) rows.now }
    ensures { IfOk result (λ text. text ≡ select_text columns.now items.now rows.now) }
{
    let mut out = Vec::new(alloc);
    print_rows(alloc, columns, items, rows, &mut out)?;
    print_count(alloc, rows.len(), &mut out)?;
    Ok(Bin::of(out))
}

/// A line for each row.
fn print_rows(
    alloc: Global,
    columns: &Columns,
    items: &Option<Exprs>,
    rows: &[Row],
    out: &mut Vec<u8>,
) -> Result<(), AllocError>
    requires checked { IfSome items.now (AreChecked columns.now) }
    requires fitting { All (λ row. AreFitting columns.now row.cells) rows.now }
    ensures { OnOk result (out.new.items ≡ out.old.items ++ flat_map (λ row. row_text columns.now items.now row.cells) rows.now) }
{
    for row in rows {
        print_row(alloc, columns, items, &row.cells, out)?;
    }
    Ok(())
}

/// Appends the line of a row: the values of the expressions, or for `*` of all columns. Want of memory may leave a part of the line in `out`.
pub fn print_row(
    alloc: Global,
    columns: &Columns,
    items: &Option<Exprs>,
    cells: &Cells,
    out: &mut Vec<u8>,
) -> Result<(), AllocError>
    requires checked { IfSome items.now (AreChecked columns.now) }
    requires fitting { AreFitting columns.now cells.now }
    ensures { OnOk result (out.new.items ≡ out.old.items ++ row_text columns.now items.now cells.now) }
{
    print_items(alloc, columns, items, cells, out)?;
    put_bytes(out, b"\n")
}

fn print_items(
    alloc: Global,
    columns: &Columns,
    items: &Option<Exprs>,
    cells: &Cells,
    out: &mut Vec<u8>,
) -> Result<(), AllocError>
    requires checked { IfSome items.now (AreChecked columns.now) }
    requires fitting { AreFitting columns.now cells.now }
    ensures { OnOk result (out.new.items ≡ out.old.items ++ with_tabs (texts_of columns.now items.now cells.now)) }
{
    match items {
        Some(exprs) => print_exprs(alloc, columns, exprs.items(), cells, out),
        None => print_cells(alloc, cells.items(), out),
    }
}

fn print_exprs(
    alloc: Global,
    columns: &Columns,
    exprs: &[Expr],
    cells: &Cells,
    out: &mut Vec<u8>,
) -> Result<(), AllocError>
    requires checked { AreChecked columns.now exprs.now }
    requires fitting { AreFitting columns.now cells.now }
    ensures { OnOk result (out.new.items ≡ out.old.items ++ with_tabs (map (λ expr. shown (whole_value columns.now expr false cells.now)) exprs.now)) }
{
    for (at, expr) in exprs.iter().enumerate() {
        print_tab(at, out)?;
        print_expr(alloc, columns, expr, cells, out)?;
    }
    Ok(())
}

fn print_expr(
    alloc: Global,
    columns: &Columns,
    expr: &Expr,
    cells: &Cells,
    out: &mut Vec<u8>,
) -> Result<(), AllocError>
    requires checked { IsOk (checked columns.now expr.now false) }
    requires fitting { AreFitting columns.now cells.now }
    ensures { OnOk result (out.new.items ≡ out.old.items ++ shown (whole_value columns.now expr.now false cells.now)) }
{
    print_cell(alloc, eval(columns, expr, false, cells), out)
}

fn print_cells(alloc: Global, cells: &[Value], out: &mut Vec<u8>) -> Result<(), AllocError>
    requires { All CanShow cells.now }
    ensures { OnOk result (out.new.items ≡ out.old.items ++ with_tabs (map shown cells.now)) }
{
    for (at, value) in cells.iter().enumerate() {
        print_tab(at, out)?;
        print_value(alloc, value, out)?;
    }
    Ok(())
}

/// The tab before each text but the first.
fn print_tab(at: usize, out: &mut Vec<u8>) -> Result<(), AllocError>
    ensures { OnOk result (out.new.items ≡ out.old.items ++ tab_at at) }
{
    if at == 0 {
        return Ok(());
    }
    put_bytes(out, b"\t")
}

/// A value of a calculation.
fn print_cell(alloc: Global, cell: Cell, out: &mut Vec<u8>) -> Result<(), AllocError>
    requires { CanShow (lent cell) }
    ensures { OnOk result (out.new.items ≡ out.old.items ++ shown (lent cell.entry)) }
{
    match cell {
        Cell::Null => put_bytes(out, b"NULL"),
        Cell::Wide(n) => print_number(alloc, n, out),
        Cell::Day(day) => print_value(alloc, &Value::Day(day), out),
        Cell::Bytes(bytes) => {
            let value = Value::Bytes(Bin::from_slice(alloc, bytes)?);
            print_value(alloc, &value, out)
        }
    }
}

fn print_number(alloc: Global, n: i128, out: &mut Vec<u8>) -> Result<(), AllocError>
    ensures { OnOk result (out.new.items ≡ out.old.items ++ signed_decimal n) }
{
    let text = format!(in alloc; "{n}")?;
    put_bytes(out, text.as_bytes())
}

fn print_value(alloc: Global, value: &Value, out: &mut Vec<u8>) -> Result<(), AllocError>
    requires { CanShow value.now }
    ensures { OnOk result (out.new.items ≡ out.old.items ++ shown value.now) }
{
    let text = value.show(alloc)?;
    put_bytes(out, text.items())
}

/// The line with the number of rows.
fn print_count(alloc: Global, count: usize, out: &mut Vec<u8>) -> Result<(), AllocError>
    ensures { OnOk result (out.new.items ≡ out.old.items ++ count_text count) }
{
    let text = format!(in alloc; "rows {count}\n")?;
    put_bytes(out, text.as_bytes())
}

fn put_bytes(out: &mut Vec<u8>, bytes: &[u8]) -> Result<(), AllocError>
    ensures { OnOk result (out.new.items ≡ out.old.items ++ bytes.now) }
{
    out.extend_from_slice(bytes)
}
