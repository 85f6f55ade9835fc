ghost use Rattle.pt_unique.specs.Laws.{Agreeing};

/// The entries of two rows agree exactly where their cells agree on a key, so a book's word is the definition's.
pub fn agreeing()
    ensures { Agreeing }
{}
