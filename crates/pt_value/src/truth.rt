ghost use Rattle.std.specs.Prelude.{◌≡◌, ◌↔◌, IsTrue, nat_le};
ghost use Rattle.pt_value.specs.Truth.{rank, least, greatest, turned};

/// What a condition is of a row, from the lowest to the highest. None of the calls takes memory.
#[derive(Clone, Copy, Debug, PartialEq, Eq)]
pub enum Truth {
    False,
    Unknown,
    True,
}

impl Truth {
    /// AND: the least of both.
    pub fn and(self, other: Truth) -> Truth
        ensures { result ≡ least self other }
    {
        if self.rank() <= other.rank() {
            self
        } else {
            other
        }
    }

    /// OR: the greatest of both.
    pub fn or(self, other: Truth) -> Truth
        ensures { result ≡ greatest self other }
    {
        if self.rank() <= other.rank() {
            other
        } else {
            self
        }
    }

    /// NOT: the order turned round, so that UNKNOWN stays.
    pub fn not(self) -> Truth
        ensures { result ≡ turned self }
    {
        match self {
            Truth::False => Truth::True,
            Truth::Unknown => Truth::Unknown,
            Truth::True => Truth::False,
        }
    }

    fn rank(self) -> u8
        ensures { result ≡ rank self }
    {
        match self {
            Truth::False => 0,
            Truth::Unknown => 1,
            Truth::True => 2,
        }
    }
}
