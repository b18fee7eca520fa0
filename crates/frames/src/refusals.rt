// Refusals: why a text or a call is refused, and at which line. What each reason means is said in specs/Refusals.antt.
ghost use Rattle.std.specs.Prelude.{◌≡◌};
ghost use Rattle.base.specs.Truths.{pick};
ghost use Rattle.frames.specs.Progress.{misfit_of};
ghost use Rattle.frames.specs.Views.{number_of, fault_of};
ghost use Rattle.frames.specs.Refusals.{short_output};

use base::Short;

// Why a text or a call is refused, each with its number of documents 01 and 02.
#[derive(Clone, Copy, Debug, PartialEq, Eq)]
pub enum Reason {
    NoLine = 1,
    WrongForm = 2,
    OutOfSequence = 3,
    BadEntity = 4,
    BadNumber = 5,
    EmptyRange = 6,
    ProtectedNull = 7,
    ShortOutput = 8,
    NoSuchRow = 9,
    NoSuchEntity = 10,
    NotJoinable = 11,
    NoSuchSide = 12,
}

impl Reason {
    // Its number.
    pub fn number(self) -> u8
        ensures { result ≡ number_of self }
    {
        self as u8
    }
}

// Document 01's refusal, "number and line": a reason's number, and the line, from 1; 0 for a call's own conditions.
// As it is: a number, since the promise RefusedText is of every number that reading a text may give, and a C caller takes it.
#[derive(Clone, Copy, Debug, PartialEq, Eq)]
pub struct Refusal {
    pub number: u8,
    pub line: u8,
}

impl From<Reason> for Refusal {
    ghost from_gives = { λ reason r. r ≡ record { number = number_of reason; line = 0 } };

    fn from(reason: Reason) -> Refusal {
        Refusal {
            number: reason.number(),
            line: 0,
        }
    }
}

impl From<Short> for Refusal {
    ghost from_gives = { λ _ r. r ≡ record { number = short_output; line = 0 } };

    fn from(_short: Short) -> Refusal {
        Refusal::from(Reason::ShortOutput)
    }
}

// Ok if the condition holds, else the reason.
pub fn keep(holds: bool, reason: Reason) -> Result<(), Reason>
    ensures { fault_of result ≡ pick holds 0 (number_of reason) }
{
    if holds { Ok(()) } else { Err(reason) }
}

// Ok, or why a frame is refused, which has not its length or not its place in the sequence.
pub fn misfit(long: bool, placed: bool) -> Result<(), Reason>
    ensures { fault_of result ≡ misfit_of long placed }
{
    keep(long, Reason::WrongForm)?;
    keep(placed, Reason::OutOfSequence)
}
