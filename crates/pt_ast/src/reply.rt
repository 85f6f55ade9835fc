ghost use Rattle.std.specs.Prelude.{◌≡◌};

use pt_value::Bin;

/// What a statement answers: whole lines of text, and the code of its refusal, 0 where it isn't refused.
#[derive(Drop)]
pub struct Reply {
    pub code: u8,
    pub text: Bin,
}

impl Reply {
    /// The text: whole lines, each ended by a line feed. It takes no memory.
    pub fn bytes(&self) -> &[u8]
        ensures { result.now ≡ self.now.text }
    {
        self.text.items()
    }

    /// The code of the refusal, 0 where the statement isn't refused. It takes no memory.
    pub fn code(&self) -> u8
        ensures { result ≡ self.now.code }
    {
        self.code
    }
}
