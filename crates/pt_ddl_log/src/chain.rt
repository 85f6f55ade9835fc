use pt_host::Name;
use pt_plain::List;

/// One change of a directory's names.
#[derive(Clone, Copy)]
pub enum Act {
    /// The file of this name goes.
    Delete { name: Name },
    /// The file `from` gets the name `to`, which no file has.
    Rename { from: Name, to: Name },
    /// The file `from` gets the name `to`, and the older file of that name goes.
    Replace { from: Name, to: Name },
    /// Two files get each other's names.
    Exchange { a: Name, b: Name },
}

/// Acts that are done together. A stop leaves all of them or none.
#[derive(Drop)]
pub struct Chain {
    pub acts: List<Act>,
}
