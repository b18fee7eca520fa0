// What is about no document.
#![tactic(auto)]

ghost use Rattle.std.specs.Prelude.{◌≡◌};
ghost use Rattle.base.specs.Truths.{bit as bit_of};

// The caller's output is shorter than the result that was to be written to it.
#[derive(Clone, Copy, Debug, PartialEq, Eq)]
pub struct Short;

// What becomes of a result that is written to a caller's output: how many it is, bytes of a text or things of a list, or that the output is shorter.
pub type Written = Result<usize, Short>;

// 1 if b holds, else 0.
pub fn bit(b: bool) -> usize
    ensures { result ≡ bit_of b }
{
    usize::from(b)
}
