ghost use Rattle.std.specs.Prelude.{◌≡◌, ◌≤◌, ◌++◌, ◌∷◌, [], codes, decimal, IfOk};
ghost use Rattle.pt_complete.specs.Making.{IsSpelled, bad_name_beside, bad_names_beside};
ghost use Rattle.pt_written.specs.Complete.{refused_or};
ghost use Rattle.pt_written.specs.WrittenParts.{sub_names, subs_named};

use crate::made_names::ident_of;
use itoa::Buffer;
use pt_ast::{Idents, Refusal, SubSpec};
use pt_distinct::Names;
use pt_value::Ident;
use std::alloc::{AllocError, Global};

/// The names of a partition's subpartitions, which are added to those before them, behind that of the partition; or the first name
/// that is too long or stands before.
pub fn subs_named(
    alloc: Global,
    names: &mut Names,
    sub: &Option<SubSpec>,
    count: u32,
    part: &Ident,
    written: &Option<Idents>,
) -> Result<Result<Idents, Refusal>, AllocError>
    ensures made { IfOk result (λ made. made ≡ refused_or (bad_names_beside names.old part.now (part.now ∷ subs_named sub.now count part.now written.now)) (subs_named sub.now count part.now written.now)) }
    ensures names { IfOk result (λ made. IfOk made (λ _. names.new ≡ names.old ++ part.now ∷ subs_named sub.now count part.now written.now)) }
{
    if let Err(refusal) = put_name(names, part, part.bytes())? {
        return Ok(Err(refusal));
    }
    if sub.is_none() {
        return Ok(Ok(Idents::new(alloc)));
    }
    match written {
        Some(subs) => subs_written(alloc, names, part, subs.items()),
        None => subs_made(alloc, names, part, count),
    }
}

fn subs_written(
    alloc: Global,
    names: &mut Names,
    part: &Ident,
    written: &[Ident],
) -> Result<Result<Idents, Refusal>, AllocError>
    ensures made { IfOk result (λ made. made ≡ refused_or (bad_names_beside names.old part.now written.now) written.now) }
    ensures names { IfOk result (λ made. IfOk made (λ _. names.new ≡ names.old ++ written.now)) }
{
    let mut subs = Idents::new(alloc);
    for sub in written {
        match put_name(names, part, sub.bytes())? {
            Ok(name) => subs.push(name)?,
            Err(refusal) => return Ok(Err(refusal)),
        }
    }
    Ok(Ok(subs))
}

fn subs_made(
    alloc: Global,
    names: &mut Names,
    part: &Ident,
    count: u32,
) -> Result<Result<Idents, Refusal>, AllocError>
    ensures made { IfOk result (λ made. made ≡ refused_or (bad_names_beside names.old part.now (sub_names part.now count)) (sub_names part.now count)) }
    ensures names { IfOk result (λ made. IfOk made (λ _. names.new ≡ names.old ++ sub_names part.now count)) }
{
    let mut subs = Idents::new(alloc);
    for number in 0..count {
        match put_made(alloc, names, part, number)? {
            Ok(name) => subs.push(name)?,
            Err(refusal) => return Ok(Err(refusal)),
        }
    }
    Ok(Ok(subs))
}

/// The partition's name, `sp`, and the number.
fn put_made(
    alloc: Global,
    names: &mut Names,
    part: &Ident,
    number: u32,
) -> Result<Result<Ident, Refusal>, AllocError>
    ensures made { IfOk result (λ made. made ≡ refused_or (bad_name_beside names.old part.now (part.now ++ codes "sp" ++ decimal number)) (part.now ++ codes "sp" ++ decimal number)) }
    ensures names { IfOk result (λ made. IfOk made (λ _. names.new ≡ names.old ++ (part.now ++ codes "sp" ++ decimal number) ∷ [])) }
{
    let mut bytes = Vec::from_slice(alloc, part.bytes())?;
    bytes.extend_from_slice(b"sp")?;
    bytes.extend_from_slice(Buffer::new().format(number).as_bytes())?;
    put_name(names, part, bytes.as_slice())
}

/// A name of a partition or of its subpartition, which is added to those before it; or what is refused of it.
fn put_name(
    names: &mut Names,
    part: &Ident,
    bytes: &[u8],
) -> Result<Result<Ident, Refusal>, AllocError>
    requires { IsSpelled bytes.now }
    ensures made { IfOk result (λ made. made ≡ refused_or (bad_name_beside names.old part.now bytes.now) bytes.now) }
    ensures names { IfOk result (λ made. IfOk made (λ _. names.new ≡ names.old ++ bytes.now ∷ [])) }
{
    if bytes.len() > 64 {
        return Ok(Err(Refusal::DuplicatePartition(*part)));
    }
    let name = ident_of(bytes);
    if names.has(&name) {
        return Ok(Err(Refusal::DuplicatePartition(name)));
    }
    names.add(&name)?;
    Ok(Ok(name))
}
