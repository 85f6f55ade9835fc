ghost use Rattle.pt_db.specs.Sound.{IsSound};

use crate::taking::{begun, taken};
use percent_encoding::percent_decode;
use pt_ast::Db;
use std::alloc::{AllocError, Global};

/// Writes the answer of a line, and takes what it asks. The number is that of the last statement on the database.
pub(crate) fn answer(
    alloc: Global,
    out: &mut Vec<u8>,
    db: &mut Db,
    number: &mut u64,
    line: &str,
) -> Result<(), AllocError>
    requires { IsSound db.old }
    ensures { IsSound db.new }
{
    if line.is_empty() || line.starts_with('#') {
        return put_line(out, line);
    }
    if line == "new" || line == "late" {
        *db = begun(alloc, line);
        *number = 0;
        return put_line(out, line);
    }
    *number = number.saturating_add(1);
    put_taken(alloc, out, db, *number, line)
}

fn put_line(out: &mut Vec<u8>, line: &str) -> Result<(), AllocError> {
    out.extend_from_slice(line.as_bytes())?;
    out.push(b'\n')?;
    Ok(())
}

fn put_taken(
    alloc: Global,
    out: &mut Vec<u8>,
    db: &mut Db,
    number: u64,
    line: &str,
) -> Result<(), AllocError>
    requires { IsSound db.old }
    ensures { IsSound db.new }
{
    let piece = bytes_of(alloc, line)?;
    let reply = taken(alloc, db, number, &piece)?;
    out.extend_from_slice(reply.bytes())
}

/// The bytes that a text writes.
fn bytes_of(alloc: Global, text: &str) -> Result<Vec<u8>, AllocError> {
    let mut bytes = Vec::new(alloc);
    percent_decode(text.as_bytes()).append_to(&mut bytes)?;
    Ok(bytes)
}
