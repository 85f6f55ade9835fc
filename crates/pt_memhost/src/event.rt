use pt_host::Name;
use pt_plain::List;

/// A call that moved the world of a host in memory on.
#[derive(Drop)]
pub enum Event {
    /// The directory with this name was entered.
    Entered(List<u8>),
    /// The file was read from.
    Looked(Name),
    /// These bytes were written at a place.
    Wrote(Name, u64, List<u8>),
    /// A write of so many bytes at a place failed after these, the first of them.
    Tore(Name, u64, u64, List<u8>),
    Synced(Name),
    Created(Name),
    Renamed(Name, Name),
    Unlinked(Name),
    SyncedNames,
    /// So many bytes of the input were taken.
    Took(u64),
    Said(List<u8>),
}
