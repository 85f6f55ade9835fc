ghost use Rattle.std.specs.Prelude.{◌≡◌, IfOk, IfSome, length, nat_eq};
ghost use Rattle.std.specs.Option.{option_map};
ghost use Rattle.pt_bytes.specs.Numbers.{number_of};
ghost use Rattle.pt_rowfile.specs.Reader.{cell_at, cells_at, counted_at, day_at, head_at, head_of as head_in, headed_at, int_at, number_at, put_of, delete_of, record_at, record_of, split, text_at};
ghost use Rattle.pt_rowfile.specs.Taking.{Takes, TakesByte};

use crate::record::Record;
use pt_ast::{Cells, Row};
use pt_bytes::Cursor;
use pt_value::{Bin, Value};
use std::alloc::{AllocError, Global};
use std::marker::Model;

/// Bytes that are read from the front. Contracts see those that are left.
#[derive(Drop)]
pub(crate) struct Source<'a> {
    rest: &'a [u8],
}

impl<'a> Model for Source<'a> {
    ghost use Rattle.std.specs.Prelude.{List as Listed, ℕ};

    ghost Value = { Listed ℕ };

    ghost view = { λ source. source.rest.now };
}

impl<'a> Source<'a> {
    pub(crate) fn new(bytes: &'a [u8]) -> Source<'a>
        ensures { result ≡ bytes.now }
    {
        Source { rest: bytes }
    }

    /// How many bytes are left.
    pub(crate) fn len(&self) -> usize
        ensures { result ≡ length self.now }
    {
        self.rest.len()
    }

    fn is_empty(&self) -> bool
        ensures { result ≡ nat_eq (length self.now) 0 }
    {
        self.rest.len() == 0
    }

    /// So many bytes.
    #[tactic(auto, unfolding(crate::specs::Reader::split))]
    fn part(&mut self, n: usize) -> Option<&'a [u8]>
        ensures takes { Takes (option_map (λ part. part.now) result) self.new (split n self.old) }
        ensures long { IfSome result (λ part. length part.now ≡ n) }
    {
        let (part, rest) = self.rest.split_at_checked(n)?;
        self.rest = rest;
        Some(part)
    }

    fn byte(&mut self) -> Option<u8>
        ensures { TakesByte result self.new self.old }
    {
        let (byte, rest) = self.rest.split_first()?;
        self.rest = rest;
        Some(*byte)
    }

    /// The number of two bytes.
    #[tactic(auto, unfolding(crate::specs::Reader::number_at))]
    fn short(&mut self) -> Option<u16>
        ensures { Takes result self.new (number_at 2 self.old) }
    {
        let part = self.part(2)?;
        Some(short_of(part))
    }

    /// The number of four bytes.
    #[tactic(auto, unfolding(crate::specs::Reader::number_at))]
    fn word(&mut self) -> Option<u32>
        ensures { Takes result self.new (number_at 4 self.old) }
    {
        let part = self.part(4)?;
        Some(word_of(part))
    }

    /// The number of eight bytes.
    #[tactic(auto, unfolding(crate::specs::Reader::number_at))]
    fn long(&mut self) -> Option<u64>
        ensures { Takes result self.new (number_at 8 self.old) }
    {
        let part = self.part(8)?;
        Some(long_of(part))
    }

    #[tactic(auto, unfolding(crate::specs::Reader::int_at))]
    fn int(&mut self) -> Option<Value>
        ensures { Takes result self.new (int_at self.old) }
    {
        let number = self.long()?;
        Some(Value::Int(number.cast_signed()))
    }

    #[tactic(auto, unfolding(crate::specs::Reader::day_at))]
    fn day(&mut self) -> Option<Value>
        ensures { Takes result self.new (day_at self.old) }
    {
        let number = self.word()?;
        Some(Value::Day(number.cast_signed()))
    }

    /// The bytes of a byte string, and before them how many.
    #[tactic(auto, unfolding(crate::specs::Reader::counted_at))]
    fn text_bytes(&mut self) -> Option<&'a [u8]>
        ensures { Takes (option_map (λ part. part.now) result) self.new (counted_at 2 self.old) }
    {
        let count = self.short()?;
        self.part(count as usize)
    }

    #[tactic(auto, unfolding(crate::specs::Reader::text_at))]
    fn text(&mut self, alloc: Global) -> Result<Option<Value>, AllocError>
        ensures { IfOk result (λ found. Takes found self.new (text_at self.old)) }
    {
        let Some(bytes) = self.text_bytes() else {
            return Ok(None);
        };
        Ok(Some(Value::Bytes(Bin::from_slice(alloc, bytes)?)))
    }

    /// A cell.
    #[tactic(auto, unfolding(crate::specs::Reader::cell_at, crate::specs::Reader::cell_of_kind))]
    fn cell(&mut self, alloc: Global) -> Result<Option<Value>, AllocError>
        ensures { IfOk result (λ found. Takes found self.new (cell_at self.old)) }
    {
        let Some(kind) = self.byte() else {
            return Ok(None);
        };
        match kind {
            0 => Ok(Some(Value::Null)),
            1 => Ok(self.int()),
            2 => Ok(self.day()),
            3 => self.text(alloc),
            _ => Ok(None),
        }
    }

    /// So many cells. It takes no memory by their number.
    fn cells(&mut self, alloc: Global, count: u32) -> Result<Option<Cells>, AllocError>
        ensures { IfOk result (λ found. Takes found self.new (cells_at count self.old)) }
    {
        let mut cells = Cells::new(alloc);
        let mut left = count;
        while left > 0 {
            let Some(cell) = self.cell(alloc)? else {
                return Ok(None);
            };
            cells.push(cell)?;
            left -= 1;
        }
        Ok(Some(cells))
    }

    /// The body of a record, and before it its length.
    #[tactic(auto, unfolding(crate::specs::Reader::counted_at))]
    fn body(&mut self) -> Option<&'a [u8]>
        ensures { Takes (option_map (λ part. part.now) result) self.new (counted_at 4 self.old) }
    {
        let length = self.word()?;
        self.part(length as usize)
    }

    /// The kind and the serial of a body.
    #[tactic(auto, unfolding(crate::specs::Reader::head_at))]
    fn head(&mut self) -> Option<(u8, u64)>
        ensures { Takes result self.new (head_at self.old) }
    {
        let kind = self.byte()?;
        let serial = self.long()?;
        Some((kind, serial))
    }

    #[tactic(auto, unfolding(crate::specs::Reader::delete_of))]
    fn delete(&self, serial: u64) -> Option<Record>
        ensures { result ≡ delete_of serial self.now }
    {
        if !self.is_empty() {
            return None;
        }
        Some(Record::Delete(serial))
    }

    #[tactic(auto, unfolding(crate::specs::Reader::put_of))]
    fn put(&mut self, alloc: Global, serial: u64) -> Result<Option<Record>, AllocError>
        ensures { IfOk result (λ found. found ≡ put_of serial self.old) }
    {
        let Some(count) = self.word() else {
            return Ok(None);
        };
        let Some(cells) = self.cells(alloc, count)? else {
            return Ok(None);
        };
        if !self.is_empty() {
            return Ok(None);
        }
        Ok(Some(Record::Put(Row { serial, cells })))
    }

    /// A record.
    #[tactic(auto, unfolding(crate::specs::Reader::record_at))]
    pub(crate) fn record(&mut self, alloc: Global) -> Result<Option<Record>, AllocError>
        ensures { IfOk result (λ found. Takes found self.new (record_at self.old)) }
    {
        let Some(body) = self.body() else {
            return Ok(None);
        };
        record_of(alloc, body)
    }

    /// The kind and the serial of a record, which is passed over.
    #[tactic(auto, unfolding(crate::specs::Reader::headed_at))]
    pub(crate) fn headed(&mut self) -> Option<(u8, u64)>
        ensures { Takes result self.new (headed_at self.old) }
    {
        let body = self.body()?;
        let head = head_of(body)?;
        Some(head)
    }
}

/// The kind and the serial of the record that has this body.
#[tactic(auto, unfolding(crate::specs::Reader::head_of))]
fn head_of(body: &[u8]) -> Option<(u8, u64)>
    ensures { result ≡ head_in body.now }
{
    let head = Source::new(body).head()?;
    Some(head)
}

/// The record that has this body.
#[tactic(auto, unfolding(crate::specs::Reader::record_of, crate::specs::Reader::record_of_kind))]
fn record_of(alloc: Global, body: &[u8]) -> Result<Option<Record>, AllocError>
    ensures { IfOk result (λ found. found ≡ record_of body.now) }
{
    let mut source = Source::new(body);
    let Some((kind, serial)) = source.head() else {
        return Ok(None);
    };
    match kind {
        1 => source.put(alloc, serial),
        2 => Ok(source.delete(serial)),
        _ => Ok(None),
    }
}

/// The number of two bytes.
fn short_of(part: &[u8]) -> u16
    requires { length part.now ≡ 2 }
    ensures { result ≡ number_of part.now }
{
    part[0] as u16 + 256 * part[1] as u16
}

/// The number of four bytes.
fn word_of(part: &[u8]) -> u32
    requires { length part.now ≡ 4 }
    ensures { result ≡ number_of part.now }
{
    match Cursor::new(part).u32_at(0) {
        Some(number) => number,
        None => unreachable!(),
    }
}

/// The number of eight bytes.
fn long_of(part: &[u8]) -> u64
    requires { length part.now ≡ 8 }
    ensures { result ≡ number_of part.now }
{
    match Cursor::new(part).u64_at(0) {
        Some(number) => number,
        None => unreachable!(),
    }
}
