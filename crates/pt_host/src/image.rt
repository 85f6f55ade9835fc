ghost use Rattle.std.specs.Prelude.{◌≡◌, ◌↔◌, IsTrue, IsSome, IfSome};
ghost use Rattle.std.specs.List.Sorted.{IsStrictlySortedBy-prop};
ghost use Rattle.pt_host.specs.Listed.{AreRising};

use crate::Name;
use pt_plain::List;

/// Files with their names.
pub type FileList = List<(Name, List<u8>)>;

/// A directory at rest: its files in rising byte order of their names, each name once.
#[derive(Debug, Drop)]
pub struct Image {
    pub files: FileList,
    pub ghost rising: { AreRising files } by { IsStrictlySortedBy-prop _ _ },
}

impl Image {
    /// The directory with these files. `None` exactly where their names don't rise in byte order, each once. It takes
    /// no memory.
    pub fn of(files: FileList) -> Option<Image>
        ensures some { IsSome result ↔ AreRising files }
        ensures files { IfSome result (λ image. image.files ≡ files) }
    {
        if !are_rising(files.items()) {
            return None;
        }
        Some(Image { files })
    }
}

fn are_rising(files: &[(Name, List<u8>)]) -> bool
    ensures { IsTrue result ↔ AreRising files.now }
{
    files.is_sorted_by(|a, b| a.0 < b.0)
}
