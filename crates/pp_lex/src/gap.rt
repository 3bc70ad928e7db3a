//! The white space and the comments that a text begins with.
ghost use Rattle.std.specs.Prelude.{◌≡◌, ℕ, ◌<◌, ◌≤◌, ◌↔◌, IsTrue, length, take};
ghost use Rattle.pp_language.specs.Tokens.{gap_step, ends_gap, IsGap, IsLastGap};
ghost use Rattle.pp_lex.specs.Gaps.{gap_of};

/// Where a run over white space and comments stands.
#[derive(Clone, Copy, Debug, PartialEq, Eq)]
pub enum State {
    Clear,
    Line,
    Slash,
    Block,
    Star,
    Broken,
}

impl State {
    fn after(self, byte: u8) -> State
        ensures { gap_of result ≡ gap_step (gap_of self) byte }
    {
        match self {
            State::Clear => State::after_clear(byte),
            State::Line if byte == b'\n' => State::Clear,
            State::Line => State::Line,
            State::Slash if byte == b'*' => State::Block,
            State::Slash | State::Broken => State::Broken,
            State::Star if byte == b'/' => State::Clear,
            State::Block | State::Star if byte == b'*' => State::Star,
            State::Block | State::Star => State::Block,
        }
    }

    fn after_clear(byte: u8) -> State
        ensures { gap_of result ≡ gap_step (gap_of State.Clear) byte }
    {
        match byte {
            b' ' | b'\t' | b'\n' | b'\r' => State::Clear,
            b'%' => State::Line,
            b'/' => State::Slash,
            _ => State::Broken,
        }
    }

    /// Whether a text may end here.
    fn ends(self) -> bool
        ensures { result ≡ ends_gap (gap_of self) }
    {
        matches!(self, State::Clear | State::Line)
    }
}

/// The gap that a text begins with: its length, and whether the text ends with it.
#[derive(Clone, Copy, Debug)]
pub struct Gap {
    pub size: usize,
    pub is_last: bool,
}

/// The longest gap that `rest` begins with. It is the last one where nothing else follows, or only a comment that the
/// end of the text ends.
pub fn measure_gap(rest: &[u8]) -> Gap
    ensures within { result.size ≤ length rest.now }
    ensures is_gap { IsGap (take result.size rest.now) }
    ensures longest { (n : ℕ) → result.size < n → n ≤ length rest.now → IsGap (take n rest.now) → ⊥ }
    ensures last { IsTrue result.is_last ↔ IsLastGap rest.now }
{
    let mut state = State::Clear;
    let mut size = 0;
    for (at, byte) in rest.iter().enumerate() {
        state = state.after(*byte);
        match state {
            State::Clear => size = at + 1,
            State::Broken => return Gap {
                size,
                is_last: false,
            },
            _ => {}
        }
    }
    Gap {
        size,
        is_last: state.ends(),
    }
}
