ghost use Rattle.std.specs.Prelude.{◌≡◌, ◌++◌, IfOk, OnOk, Err};
ghost use Rattle.std.specs.Fmt.{decimal};
ghost use Rattle.std.specs.String.{string_bytes};
ghost use Rattle.pt_db.specs.Outcome.{reply_of};
ghost use Rattle.pt_db.specs.Texts.{answered, arg_text, count_text, counts_text, ok_text};

use pt_ast::{Arg, Refusal, Reply};
use pt_plain::List;
use std::alloc::{AllocError, Global};

/// The answer of a refused statement: its code, and the line `error CODE NAME ARG`.
pub fn refusal_reply(alloc: Global, refusal: Refusal) -> Result<Reply, AllocError>
    ensures { IfOk result (λ reply. reply ≡ reply_of (Err refusal)) }
{
    let code = refusal.code();
    let mut text = format!(in alloc; "error {code} ")?.into_bytes();
    text.extend_from_slice(refusal.name())?;
    text.push(b' ')?;
    push_arg(alloc, &mut text, &refusal.arg())?;
    text.push(b'\n')?;
    Ok(Reply {
        code,
        text: List::of(text),
    })
}

/// Adds what a refusal is about.
fn push_arg(alloc: Global, text: &mut Vec<u8>, arg: &Arg) -> Result<(), AllocError>
    ensures { OnOk result (text.new.items ≡ text.old.items ++ arg_text arg.now) }
{
    match arg {
        Arg::Name(name) => text.extend_from_slice(name.bytes())?,
        Arg::Number(number) => push_number(alloc, text, *number)?,
        Arg::Primary => text.extend_from_slice(b"PRIMARY")?,
        Arg::Key => text.extend_from_slice(b"KEY")?,
    }
    Ok(())
}

/// Adds a number in decimal digits.
fn push_number(alloc: Global, text: &mut Vec<u8>, number: u64) -> Result<(), AllocError>
    ensures { OnOk result (text.new.items ≡ text.old.items ++ decimal number) }
{
    let digits = format!(in alloc; "{number}")?;
    text.extend_from_slice(digits.as_bytes())?;
    Ok(())
}

/// The answer `ok`.
pub fn ok_reply(alloc: Global) -> Result<Reply, AllocError>
    ensures { IfOk result (λ reply. reply ≡ answered ok_text) }
{
    Ok(text_reply(format!(in alloc; "ok\n")?))
}

/// The answer `ok COUNT`.
pub fn count_reply(alloc: Global, count: u64) -> Result<Reply, AllocError>
    ensures { IfOk result (λ reply. reply ≡ answered (count_text count)) }
{
    Ok(text_reply(format!(in alloc; "ok {count}\n")?))
}

/// The answer `ok FIRST SECOND`.
pub fn counts_reply(alloc: Global, first: u64, second: u64) -> Result<Reply, AllocError>
    ensures { IfOk result (λ reply. reply ≡ answered (counts_text first second)) }
{
    Ok(text_reply(format!(in alloc; "ok {first} {second}\n")?))
}

/// An answer that is no refusal.
fn text_reply(text: String) -> Reply
    ensures { result ≡ answered (string_bytes text) }
{
    Reply {
        code: 0,
        text: List::of(text.into_bytes()),
    }
}
