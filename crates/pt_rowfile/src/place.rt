ghost use Rattle.std.specs.Prelude.{◌≡◌};
ghost use Rattle.pt_rowfile.specs.OnPlace.{placed};
ghost use Rattle.pt_rowfile.specs.Placed.{IsPlaceOf, IsRowFile};

use crate::source::Source;

/// The place of the record that put the row with this serial which the records in these bytes leave. `None` exactly where they leave
/// no such row. It takes no memory.
pub fn put_place(bytes: &[u8], serial: u64) -> Option<u64>
    requires { IsRowFile bytes.now }
    ensures { IsPlaceOf bytes.now serial result }
{
    let mut source = Source::new(bytes);
    let mut found = None;
    while source.len() > 0 {
        let here = (bytes.len() - source.len()) as u64;
        match source.headed() {
            Some(head) => found = place_by(serial, head, here, found),
            None => unreachable!(),
        }
    }
    found
}

/// The place of that row after a record of this kind and serial, which begins here.
fn place_by(serial: u64, head: (u8, u64), here: u64, place: Option<u64>) -> Option<u64>
    ensures { result ≡ placed serial head here place }
{
    if head.1 != serial {
        return place;
    }
    if head.0 == 1 {
        return Some(here);
    }
    None
}
