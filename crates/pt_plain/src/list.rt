ghost use Rattle.std.specs.Prelude.{◌≡◌, ◌≤◌, ◌<◌, [], ◌∷◌, ◌++◌, length, insert, slice_index_or, IfOk, OnOk, OnErr};
ghost use Rattle.std.specs.Borrow.{sem};
ghost use Rattle.pt_plain.specs.Lends.{LendsItem};

use std::alloc::{AllocError, Global};
use std::marker::Model;

/// A `Vec` that contracts see as the list of its elements.
#[derive(Debug, Drop)]
pub struct List<T> {
    vec: Vec<T>,
}

impl<T> Model for List<T> {
    ghost use Rattle.std.specs.Prelude.{List as Listed};
    ghost use Rattle.std.specs.Coded.{coded_list};

    ghost Value = { Listed T };

    ghost coded = { coded_list T.code };

    ghost view = { λ list. list.vec.items };
}

impl<T> List<T> {
    /// The empty list. It takes no memory.
    pub fn new(alloc: Global) -> List<T>
        ensures { result ≡ [] }
    {
        List {
            vec: Vec::new(alloc),
        }
    }

    /// The list of these elements. It takes no memory.
    pub fn of(items: Vec<T>) -> List<T>
        ensures { result ≡ items.items }
    {
        List { vec: items }
    }

    /// The elements, lent. It takes no memory.
    pub fn items(&self) -> &[T]
        ensures { result.now ≡ self.now }
    {
        self.vec.as_slice()
    }

    /// The element at `at`, lent to be changed in place. It takes no memory.
    pub fn item_mut(&mut self, at: usize) -> &mut T
        requires { at < length self.old }
        ensures* writes_back { sem 𝓛 (LendsItem T.row self.entry at result) }
        ensures value { result.now ≡ slice_index_or self.old at result.now }
    {
        &mut self.vec[at]
    }

    /// The elements, given back. It takes no memory.
    pub fn into_vec(self) -> Vec<T>
        ensures { result.items ≡ self }
    {
        let List { vec } = self;
        vec
    }
}

impl<T: Drop> List<T> {
    /// Adds an element at the end. Want of memory leaves the list as it was.
    pub fn push(&mut self, item: T) -> Result<(), AllocError>
        ensures ok { OnOk result (self.new ≡ self.old ++ item ∷ []) }
        ensures err { OnErr result (self.new ≡ self.old) }
    {
        self.vec.push(item)?;
        Ok(())
    }

    /// Adds an element before the one at `at`, or at the end. Want of memory leaves the list as it was.
    pub fn insert(&mut self, at: usize, item: T) -> Result<(), AllocError>
        requires { at ≤ length self.old }
        ensures ok { OnOk result (self.new ≡ insert self.old at item) }
        ensures err { OnErr result (self.new ≡ self.old) }
    {
        self.vec.insert(at, item)?;
        Ok(())
    }
}

impl<T: Copy> List<T> {
    /// A list of copies of these elements.
    pub fn from_slice(alloc: Global, items: &[T]) -> Result<List<T>, AllocError>
        ensures { IfOk result (λ list. list ≡ items.now) }
    {
        let vec = Vec::from_slice(alloc, items)?;
        Ok(List { vec })
    }
}

impl<T: PartialEq> PartialEq for List<T> {
    ghost use Rattle.std.specs.Cmp.Lexicographic.{pointwise, lists_per};

    ghost eq = { pointwise T.eq };

    ghost laws = { lists_per T.laws };

    fn eq(&self, other: &List<T>) -> bool {
        self.items() == other.items()
    }
}
