ghost use Rattle.std.specs.Prelude.{◌≡◌, ◌+◌, ◌-◌, ◌≤◌, ◌^◌, [], List, ℕ, true, false, length, take, drop, OnOk, IfOk};
ghost use Rattle.pt_reading.specs.Script.{with_piece};

use pt_plain::List;
use pt_token::{SplitFault, Splitter};
use pt_value::Bin;
use std::alloc::{AllocError, Global};

/// The most bytes of a script.
const MOST_SCRIPT: u64 = 4_294_967_296;

/// What was taken of a script: the statements whose pieces are closed, and the piece that is still open.
#[derive(Drop)]
pub struct Script {
    alloc: Global,
    statements: List<Bin>,
    splitter: Splitter,
    taken: u64,
    pub ghost within: { taken ≤ 2 ^ 32 },
    pub ghost short: { length splitter.piece ≤ 2 ^ 20 },
    pub ghost live: { splitter.spent ≡ false },
    pub ghost clear: { splitter.whole ≡ false },
}

impl Script {
    ghost use Rattle.pt_reading.specs.Taking.{IsTaken, IsWhole, Takes, TakesSome};

    /// Nothing is taken yet. It takes no memory.
    pub fn new(alloc: Global) -> Script
        ensures taken { IsTaken [] result }
        ensures none { result.taken ≡ 0 }
    {
        Script {
            alloc,
            statements: List::new(alloc),
            splitter: Splitter::new(alloc),
            taken: 0,
        }
    }

    /// Takes bytes, up to the first that passes a limit: a piece has 1,048,576 bytes at most, and a script 4,294,967,296. `false`
    /// where there is one.
    pub fn feed(&mut self, bytes: &[u8]) -> Result<bool, AllocError>
        ensures takes { IfOk result (λ more. (front : List ℕ) → IsTaken front self.old → Takes front bytes.now more self.new) }
        ensures count { IfOk result (λ more. more ≡ true → self.new.taken ≡ self.old.taken + length bytes.now) }
    {
        let front = at_most(bytes, MOST_SCRIPT - self.taken);
        if !self.take(front)? {
            return Ok(false);
        }
        if front.len() < bytes.len() {
            return Ok(false);
        }
        Ok(true)
    }

    /// The script ends here: its last piece needs no `;`. No byte more is taken.
    pub fn end(&mut self) -> Result<(), AllocError>
        ensures whole { OnOk result ((all : List ℕ) → IsTaken all self.old → IsWhole all self.new) }
        ensures count { self.new.taken ≡ self.old.taken }
    {
        close(self.alloc, &mut self.splitter, &mut self.statements)?;
        Ok(())
    }

    /// The statements.
    pub fn into_statements(self) -> List<Bin>
        ensures { result ≡ self.statements }
    {
        let Script {
            alloc: _,
            statements,
            splitter: _,
            taken: _,
        } = self;
        statements
    }

    /// Takes bytes for which a script has room. `false` where a piece has too many.
    fn take(&mut self, bytes: &[u8]) -> Result<bool, AllocError>
        requires room { self.old.taken + length bytes.now ≤ 2 ^ 32 }
        ensures takes { IfOk result (λ more. (front : List ℕ) → IsTaken front self.old → Takes front bytes.now more self.new) }
        ensures count { IfOk result (λ more. more ≡ true → self.new.taken ≡ self.old.taken + length bytes.now) }
    {
        let mut rest = bytes;
        while !rest.is_empty() {
            match self.take_part(rest)? {
                None => return Ok(false),
                Some(used) => rest = behind(rest, used),
            }
        }
        Ok(true)
    }

    /// Takes the bytes up to and with the first that closes the piece, and says how many. `None` where the piece has too many.
    fn take_part(&mut self, bytes: &[u8]) -> Result<Option<usize>, AllocError>
        requires room { self.old.taken + length bytes.now ≤ 2 ^ 32 }
        ensures { IfOk result (TakesSome bytes.now self.old self.new) }
    {
        match self.splitter.feed(bytes) {
            Err(fault) => {
                self.splitter = Splitter::new(self.alloc);
                match fault {
                    SplitFault::TooLong => Ok(None),
                    SplitFault::NoMemory => Err(AllocError),
                }
            }
            Ok(fed) => {
                self.taken += fed.used as u64;
                if fed.whole {
                    close(self.alloc, &mut self.splitter, &mut self.statements)?;
                    return Ok(Some(fed.used));
                }
                Ok(Some(fed.used))
            }
        }
    }
}

/// Closes the piece. It is a statement where it isn't blank.
fn close(
    alloc: Global,
    splitter: &mut Splitter,
    statements: &mut List<Bin>,
) -> Result<(), AllocError>
    ensures statements { OnOk result (statements.new ≡ with_piece splitter.old.piece statements.old) }
    ensures piece { splitter.new.piece ≡ [] }
    ensures clear { splitter.new.whole ≡ false }
    ensures spent { splitter.new.spent ≡ splitter.old.spent }
{
    let kept = keep(alloc, splitter, statements);
    splitter.clear();
    kept
}

/// Adds the piece to the statements where it isn't blank.
fn keep(alloc: Global, splitter: &Splitter, statements: &mut List<Bin>) -> Result<(), AllocError>
    ensures { OnOk result (statements.new ≡ with_piece splitter.now.piece statements.old) }
{
    if splitter.is_blank() {
        return Ok(());
    }
    statements.push(Bin::from_slice(alloc, splitter.piece())?)?;
    Ok(())
}

/// The first of the bytes, so many at most.
fn at_most(bytes: &[u8], most: u64) -> &[u8]
    ensures { result.now ≡ take most bytes.now }
{
    let most = most as usize;
    if bytes.len() <= most {
        return bytes;
    }
    &bytes[..most]
}

/// The bytes behind so many.
fn behind(bytes: &[u8], count: usize) -> &[u8]
    requires { count ≤ length bytes.now }
    ensures { result.now ≡ drop count bytes.now }
{
    &bytes[count..]
}
