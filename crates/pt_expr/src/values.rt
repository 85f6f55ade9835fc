ghost use Rattle.std.specs.Prelude.{◌≡◌, ℤ, pos, neg_ℤ, unsigned_abs, IsOk, IfOk, IfSome};
ghost use Rattle.pt_value.specs.Cell.{lent};
ghost use Rattle.pt_value.specs.Fits.{FitsDate};
ghost use Rattle.pt_expr.specs.Agrees.{Agrees, CanMultiply, CanOperate, FitsDay, FitsWide, day_in};
ghost use Rattle.pt_expr.specs.Columns.{AreFitting, cell_named};
ghost use Rattle.pt_expr.specs.Found.{checked, finding};
ghost use Rattle.pt_expr.specs.Kinds.{HasKind};
ghost use Rattle.pt_ast.specs.declared.tree.Expr.TheViews.{out-Expr};
ghost use Rattle.pt_expr.specs.Values.{as_day, call, day_or_null, on_number, operation, part_of_day, plus, times, value, wanted, whole_value};

use crate::columns::cell_named;
use pt_ast::{Cells, Columns, Expr, Func, Op};
use pt_value::{
    Cell, day_of_month, day_of_text, day_of_week, day_of_year, month, quarter, to_days, weekday,
    year,
};

/// What an expression comes to on the cells of a row. `date` says that a text which is the whole expression stands for a date.
/// It takes no memory.
pub fn eval<'a>(columns: &Columns, expr: &'a Expr, date: bool, cells: &'a Cells) -> Cell<'a>
    requires checked { IsOk (checked columns.now expr.now date) }
    requires fitting { AreFitting columns.now cells.now }
    ensures value { lent result ≡ whole_value columns.now expr.now date cells.now }
    ensures kind { IfOk (checked columns.now expr.now date) (λ kind. HasKind kind (lent result)) }
{
    wanted(date, expr, value_of(columns, expr, cells))
}

/// What an expression comes to, and that this is what it was found to be.
pub(crate) fn value_of<'a>(columns: &Columns, expr: &'a Expr, cells: &'a Cells) -> Cell<'a>
    requires found { IsOk (finding columns.now expr.now) }
    requires fitting { AreFitting columns.now cells.now }
    ensures value { lent result ≡ value columns.now cells.now expr.now }
    ensures agrees { IfOk (finding columns.now expr.now) (λ found. Agrees found (lent result)) }
{
    match expr {
        Expr::Number(n) => Cell::Wide(*n),
        Expr::Text(bytes) => Cell::Bytes(bytes.items()),
        Expr::Hex(bytes) => Cell::Bytes(bytes.items()),
        Expr::Date(day) => day_cell(*day),
        Expr::Null => Cell::Null,
        Expr::Column(name) => cell_named(columns, name, cells),
        Expr::Neg(part) => negative(value_of(columns, part.get(), cells)),
        Expr::Sum(parts) => {
            let mut sum = Cell::Wide(0);
            for (minus, part) in parts.items() {
                sum = plus(sum, *minus, value_of(columns, part, cells));
            }
            sum
        }
        Expr::Product(first, parts) => {
            let mut product = value_of(columns, first.get(), cells);
            for (op, part) in parts.items() {
                product = times(product, *op, value_of(columns, part, cells));
            }
            product
        }
        Expr::Call(func, part) => call(*func, value_of(columns, part.get(), cells)),
    }
}

/// Where a date is wanted, a text that is the whole expression as its day.
fn wanted<'a>(date: bool, expr: &Expr, value: Cell<'a>) -> Cell<'a>
    ensures { lent result ≡ wanted date (out-Expr expr.now) (lent value.entry) }
{
    match expr {
        Expr::Text(_) if date => as_day(value),
        _ => value,
    }
}

fn day_cell<'a>(day: Option<i32>) -> Cell<'a>
    ensures { lent result ≡ day_or_null day }
{
    match day {
        Some(day) => Cell::Day(day),
        None => Cell::Null,
    }
}

/// Bytes that stand for a date as their day.
pub(crate) fn as_day<'a>(cell: Cell<'a>) -> Cell<'a>
    ensures { lent result ≡ as_day (lent cell.entry) }
{
    match cell {
        Cell::Bytes(bytes) => day_cell(day_of_text(bytes)),
        _ => cell,
    }
}

fn negative<'a>(part: Cell<'a>) -> Cell<'a>
    requires { FitsWide (on_number neg_ℤ (lent part)) }
    ensures { lent result ≡ on_number neg_ℤ (lent part.entry) }
{
    match part {
        Cell::Wide(n) => Cell::Wide(-n),
        _ => Cell::Null,
    }
}

fn absolute<'a>(part: Cell<'a>) -> Cell<'a>
    requires { FitsWide (on_number (λ (n : ℤ). pos (unsigned_abs n)) (lent part)) }
    ensures { lent result ≡ on_number (λ (n : ℤ). pos (unsigned_abs n)) (lent part.entry) }
{
    match part {
        Cell::Wide(n) => Cell::Wide(if n < 0 { -n } else { n }),
        _ => Cell::Null,
    }
}

/// One more part of a sum, that is taken away where `minus` says so.
fn plus<'a>(sum: Cell<'a>, minus: bool, part: Cell<'a>) -> Cell<'a>
    requires { FitsWide (plus (lent sum) (minus, lent part)) }
    ensures { lent result ≡ plus (lent sum.entry) (minus, lent part.entry) }
{
    match (sum, part) {
        (Cell::Wide(a), Cell::Wide(b)) => Cell::Wide(if minus { a - b } else { a + b }),
        _ => Cell::Null,
    }
}

/// One more part of a product, behind this operator.
fn times<'a>(product: Cell<'a>, op: Op, part: Cell<'a>) -> Cell<'a>
    requires { CanMultiply op (lent product) (lent part) }
    ensures { lent result ≡ times (lent product.entry) (op, lent part.entry) }
{
    match (product, part) {
        (Cell::Wide(a), Cell::Wide(b)) => Cell::Wide(operation(op, a, b)),
        _ => Cell::Null,
    }
}

fn operation(op: Op, a: i128, b: i128) -> i128
    requires { CanOperate op a b }
    ensures { result ≡ operation op a b }
{
    match op {
        Op::Times => a * b,
        Op::Div => a / b,
        Op::Mod => a % b,
    }
}

fn call<'a>(func: Func, part: Cell<'a>) -> Cell<'a>
    requires day { FitsDay (lent part) }
    requires fits { FitsWide (call func (lent part)) }
    ensures { lent result ≡ call func (lent part.entry) }
{
    match func {
        Func::Abs => absolute(part),
        _ => match day_of(part) {
            Some(day) => Cell::Wide(part_of_day(func, day) as i128),
            None => Cell::Null,
        },
    }
}

/// The day that a value stands for.
fn day_of<'a>(cell: Cell<'a>) -> Option<i32>
    requires { FitsDay (lent cell) }
    ensures value { result ≡ day_in (as_day (lent cell.entry)) }
    ensures fits { IfSome result FitsDate }
{
    match cell {
        Cell::Day(day) => Some(day),
        Cell::Bytes(bytes) => day_of_text(bytes),
        Cell::Null | Cell::Wide(_) => None,
    }
}

fn part_of_day(func: Func, day: i32) -> i32
    requires { FitsDate day }
    ensures { result ≡ part_of_day func day }
{
    match func {
        Func::Abs => 0,
        Func::Year => year(day),
        Func::Month => month(day),
        Func::DayOfMonth => day_of_month(day),
        Func::DayOfYear => day_of_year(day),
        Func::DayOfWeek => day_of_week(day),
        Func::Weekday => weekday(day),
        Func::Quarter => quarter(day),
        Func::ToDays => to_days(day),
    }
}
