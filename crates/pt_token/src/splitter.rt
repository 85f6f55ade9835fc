ghost use Rattle.std.specs.Prelude.{◌≡◌, ◌↔◌, ◌<◌, ◌≤◌, [], length, true, false, is_some, IsTrue, IfOk, IfErr, IfSome, OnErr, OnOk};
ghost use Rattle.pt_token.specs.Machine.{run};
ghost use Rattle.pt_token.specs.Pieces.{before_cut, cut_in, most_piece, used_by};
ghost use Rattle.pt_token.specs.Gap.{IsBlank};
ghost use Rattle.pt_token.specs.Splitting.{IsReady, next_cut, piece_after};

use crate::gap;
use crate::state::State;
use std::alloc::Global;
use std::marker::Model;
use thiserror::Error;

/// The most bytes of a piece.
const MOST_PIECE: usize = 1_048_576;

/// What was read of the bytes that a splitter was fed.
#[derive(Clone, Copy, Debug)]
pub struct Fed {
    /// How many of the bytes were read: all of them, or up to and with the `;` that ends the piece.
    pub used: usize,
    /// Whether one of the bytes ends the piece.
    pub whole: bool,
}

/// Why a splitter refused bytes.
#[derive(Debug, Drop, Error)]
pub enum SplitFault {
    /// The piece would have more than 1,048,576 bytes.
    #[error("a piece has more than 1048576 bytes")]
    TooLong,
    /// Memory ran out.
    #[error("no memory")]
    NoMemory,
}

/// Cuts a script into pieces, as its bytes come. It stands for the bytes of its piece so far.
#[derive(Drop)]
pub struct Splitter {
    piece: Vec<u8>,
    state: State,
    whole: bool,
    spent: bool,
}

impl Model for Splitter {
    ghost use Rattle.std.specs.Prelude.{◌≡◌, ◌≤◌, length};
    ghost use Rattle.pt_token.specs.Machine.{run};
    ghost use Rattle.pt_token.specs.Pieces.{most_piece};
    ghost use Rattle.pt_token.specs.Splitting.{Split};
    ghost use Rattle.pt_token.specs.declared.state.State.TheVariants.{Plain};

    ghost Value = { Split };

    ghost view = { λ s. record { piece = s.piece.items; whole = s.whole; spent = s.spent } };

    ghost invariant = { λ s. (s.state ≡ run Plain s.piece.items) × (length s.piece.items ≤ most_piece) };
}

impl Splitter {
    /// At the beginning of a script. It takes no memory; later calls take theirs of this allocator.
    pub fn new(alloc: Global) -> Splitter
        ensures piece { result.piece ≡ [] }
        ensures ready { IsReady result }
    {
        Splitter {
            piece: Vec::new(alloc),
            state: State::Plain,
            whole: false,
            spent: false,
        }
    }

    /// Reads on, up to and with the first byte that ends the piece. After a refusal the splitter is spent.
    pub fn feed(&mut self, bytes: &[u8]) -> Result<Fed, SplitFault>
        requires ready { IsReady self.old }
        ensures used { IfOk result (λ fed. fed.used ≡ used_by (next_cut self.old.piece bytes.now) bytes.now) }
        ensures whole { IfOk result (λ fed. fed.whole ≡ is_some (next_cut self.old.piece bytes.now)) }
        ensures piece { OnOk result (self.new.piece ≡ piece_after self.old.piece bytes.now) }
        ensures marks { IfOk result (λ fed. (self.new.whole ≡ fed.whole) × (self.new.spent ≡ false)) }
        ensures within { IfOk result (λ fed. fed.used ≤ length bytes.now) }
        ensures fits { OnOk result (length self.new.piece ≤ most_piece) }
        ensures too_long { IfErr result (λ fault. (fault ≡ SplitFault.TooLong) ↔ (most_piece < length (piece_after self.old.piece bytes.now))) }
        ensures spent { OnErr result (self.new.spent ≡ true) }
    {
        let mut state = self.state;
        let cut = next_cut(&mut state, bytes);
        let front = before_cut(cut, bytes);
        if front.len() > MOST_PIECE - self.piece.len() {
            self.spent = true;
            return Err(SplitFault::TooLong);
        }
        if self.piece.extend_from_slice(front).is_err() {
            self.spent = true;
            return Err(SplitFault::NoMemory);
        }
        self.state = state;
        self.whole = cut.is_some();
        Ok(reading(cut, bytes))
    }

    /// The bytes of the piece so far. It takes no memory.
    pub fn piece(&self) -> &[u8]
        ensures { result.now ≡ self.now.piece }
    {
        self.piece.as_slice()
    }

    /// Whether the piece so far is white space and comments alone. It takes no memory.
    pub fn is_blank(&self) -> bool
        ensures { IsTrue result ↔ IsBlank self.now.piece }
    {
        gap::is_blank(self.piece.as_slice())
    }

    /// Begins the next piece. A splitter that is spent stays so. It takes no memory.
    pub fn clear(&mut self)
        ensures piece { self.new.piece ≡ [] }
        ensures clear { self.new.whole ≡ false }
        ensures spent { self.new.spent ≡ self.old.spent }
    {
        self.piece.clear();
        self.state = State::Plain;
        self.whole = false;
    }
}

/// The place of the first cut. The state is then the one after the bytes before it.
#[tactic(auto, unfolding(crate::specs::Pieces::cut_in))]
fn next_cut(state: &mut State, bytes: &[u8]) -> Option<usize>
    ensures place { result ≡ cut_in state.old bytes.now }
    ensures within { IfSome result (λ place. place < length bytes.now) }
    ensures state { state.new ≡ run state.old (before_cut result bytes.now) }
{
    for (place, b) in bytes.iter().enumerate() {
        if state.is_cut(*b) {
            return Some(place);
        }
        *state = state.step(*b);
    }
    None
}

fn before_cut(cut: Option<usize>, bytes: &[u8]) -> &[u8]
    requires { IfSome cut (λ place. place < length bytes.now) }
    ensures { result.now ≡ before_cut cut bytes.now }
{
    match cut {
        Some(place) => &bytes[..place],
        None => bytes,
    }
}

fn reading(cut: Option<usize>, bytes: &[u8]) -> Fed
    requires { IfSome cut (λ place. place < length bytes.now) }
    ensures used { result.used ≡ used_by cut bytes.now }
    ensures within { result.used ≤ length bytes.now }
    ensures whole { result.whole ≡ is_some cut }
{
    match cut {
        Some(place) => Fed {
            used: place + 1,
            whole: true,
        },
        None => Fed {
            used: bytes.len(),
            whole: false,
        },
    }
}
