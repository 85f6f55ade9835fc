use crate::answers::{cut_word, plain_answer, unknown};
use std::alloc::{AllocError, Global};

/// The answer to a line.
pub(crate) fn answer(alloc: Global, line: &str) -> Result<String, AllocError> {
    let (word, rest) = cut_word(line);
    match word {
        "repeat" => repeat_answer(alloc, rest),
        "runs" => runs_answer(alloc, rest),
        _ => plain_answer(alloc, line),
    }
}

fn repeat_answer(alloc: Global, line: &str) -> Result<String, AllocError> {
    let line = written_out(alloc, line)?;
    plain_answer(alloc, line.as_str())
}

fn runs_answer(alloc: Global, rest: &str) -> Result<String, AllocError> {
    match rest.split_once('~') {
        None => unknown(alloc),
        Some((unit, line)) => squeezed(alloc, repeat_answer(alloc, line)?.as_str(), unit),
    }
}

/// A text, where `{64*abc}` stands for 64 times `abc`.
fn written_out(alloc: Global, text: &str) -> Result<String, AllocError> {
    let mut all = String::new(alloc);
    for part in text.split('{') {
        match part.split_once('}') {
            None => all.push_str(part)?,
            Some((inside, behind)) => {
                put_times(&mut all, inside)?;
                all.push_str(behind)?;
            }
        }
    }
    Ok(all)
}

/// Writes `abc` 64 times, where this is `64*abc`.
fn put_times(text: &mut String, inside: &str) -> Result<(), AllocError> {
    let (times, unit) = inside.split_once('*').unwrap_or(("", ""));
    for _ in 0..times.parse::<usize>().unwrap_or(0) {
        text.push_str(unit)?;
    }
    Ok(())
}

/// A text, where 64 times the unit, one behind the other, is written as `{64*unit}`.
fn squeezed(alloc: Global, text: &str, unit: &str) -> Result<String, AllocError> {
    let mut all = String::new(alloc);
    let mut times = 0usize;
    for (i, part) in text.split(unit).enumerate() {
        if i > 0 {
            times = times.saturating_add(1);
        }
        if !part.is_empty() {
            put_run(&mut all, times, unit)?;
            all.push_str(part)?;
            times = 0;
        }
    }
    put_run(&mut all, times, unit)?;
    Ok(all)
}

fn put_run(text: &mut String, times: usize, unit: &str) -> Result<(), AllocError> {
    if times == 0 {
        return Ok(());
    }
    write!(text, "{{{times}*{unit}}}")
}
