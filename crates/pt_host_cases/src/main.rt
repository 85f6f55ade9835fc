//! Asks the hosts, and what they stand on, one question a line, and prints one answer a line.
//!
//! The input is cut into blocks by empty lines, which are printed as they stand, as is a line that begins with `#`. A block
//! begins with one of these lines:
//!
//! | Line | Its block is about |
//! |---|---|
//! | `memory <INPUT FILE..` | a `MemHost` over these files, with this input |
//! | `empty <INPUT` | a `MemHost` without files, with this input |
//! | `directory` | a `DirHost`, which has entered nothing yet, in the folder in which the program runs |
//! | any other | no host: each line is a word of plain data |
//!
//! BYTES, INPUT and TEXT are bytes as they stand, where `%` and two hexadecimal digits are one, and NAME a name without these.
//! FILE is `NAME=BYTES`.
//!
//! | Call of `Host` | Answer |
//! |---|---|
//! | `enter DIR` | as of `sync`; `entered` on a `MemHost` that has entered a directory |
//! | `list I` | the name, or `end` |
//! | `length NAME` | the number of bytes, or `absent` |
//! | `read NAME AT COUNT` | how many bytes came, and the buffer, which was COUNT times `-` |
//! | `write NAME AT BYTES` | as of `sync` |
//! | `sync NAME`, `unlink NAME`, `rename NAME NAME` | `ok` |
//! | `create NAME` | `ok`, or `there` where there is such a file |
//! | `names` (`sync_names`) | `ok` |
//! | `take COUNT` | how many bytes came, and the buffer |
//! | `say BYTES` | `ok` |
//!
//! A call that fails answers `failed`. On a `MemHost` a call whose `requires` isn't met isn't made: it answers `outside` before
//! a directory was entered, `absent` where the file isn't there or is too short, and `there` where it is. A `DirHost` tells no
//! content, so that each call is made on it.
//!
//! | On a `MemHost` | Answer |
//! |---|---|
//! | `fail N..` | the calls with these numbers are to fail, counted from 0 |
//! | `fuse N` | so many more calls pass |
//! | `image CHOICE` | the files that a stop may leave now, by `image_pick` |
//! | `said` | what was said |
//! | `counts` | how many calls were made, in how many memory was wanting, how many name operations are pending, how many syncs were made and how many bytes were given to be written |
//!
//! | Beside a `DirHost` | What is done, by `std::fs` |
//! |---|---|
//! | `folder PATH`, `file PATH TEXT`, `link TARGET PATH` | makes a folder, a file, a symbolic link |
//! | `show PATH` | prints the text of a file |
//! | `drop PATH`, `gone PATH` | removes a file, or a folder with all in it |
//!
//! | Plain data | Answer |
//! |---|---|
//! | `name BYTES` | `none`, or whether it is extra, its shadow and its temporary name where it has these |
//! | `rising FILE..` | whether these are an `Image` |
//! | `list N..` | a `List` of these numbers, by `push`; `+AT:N` is `insert`, `=AT:N` is `item_mut` |
//! | `bytes BYTES` | a `List` by `from_slice` |
//! | `same BYTES BYTES` | whether the `List`s of these bytes compare equal |
//! | `padded BYTES` | in an array of 4 bytes |
//! | `joined BYTES BYTES` | in an array of 6 bytes |
//! | `held N N` | a `Held` number, given back, and whether it equals the other one |
//!
//! It stands on `pt_memhost`, `pt_dirhost`, `pt_host` and `pt_plain`.
#![tactic(auto)]

mod calls;
mod directory;
mod memory;
mod plain;
mod stage;
mod texts;

use std::io;

fn main(rt: HostRuntime) -> io::Result<()> {
    let text = io::read_to_string(rt.alloc(), rt.reader())?;
    let mut is_first = true;
    for block in text.as_str().trim_end().split("\n\n") {
        if !is_first {
            println!(rt; "")?;
        }
        is_first = false;
        answer_block(&rt, block)?;
    }
    Ok(())
}

fn answer_block(rt: &HostRuntime, block: &str) -> io::Result<()> {
    let (head, lines) = block.split_once('\n').unwrap_or((block, ""));
    let (word, rest) = texts::cut(head);
    match word {
        "memory" => memory::answer_block(rt, rest, lines),
        "empty" => memory::answer_empty(rt, rest, lines),
        "directory" => directory::answer_block(rt, lines),
        _ => plain::answer_lines(rt, block),
    }
}
