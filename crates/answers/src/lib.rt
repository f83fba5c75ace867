// What a call answers: document 01, "Numbers a caller gets back". Within the library a call answers a Result; C gets a struct, whose status
// stands first, and where it is a refusal's number all else is 0.
#![tactic(auto)]

ghost use Rattle.std.specs.Prelude.{◌≡◌};
ghost use Rattle.answers.specs.Written.{refused, wrote};

// Why a call is refused, by the number that C gets.
#[derive(Clone, Copy, Debug, PartialEq, Eq)]
pub enum Refusal {
    NotOffered = 1,
    WrongLength = 2,
    NoRoom = 3,
    NoBit = 4,
    NoTraining = 5,
    NoWord = 6,
    NoBlock = 7,
    PastEnd = 8,
    SmallLength = 9,
    BrokenFill = 10,
    FewLeft = 11,
    MessagePastEnd = 12,
    NoType = 13,
    LongBody = 14,
}

impl From<Refusal> for u32 {
    ghost use Rattle.answers.specs.Working.Refusals.{number_of};

    ghost from_gives = { λ refusal number. number ≡ number_of refusal };

    fn from(refusal: Refusal) -> u32 {
        refusal as u32
    }
}

// The answer of every writing call: how many bytes it laid at the buffer's start.
#[repr(C)]
#[derive(Clone, Copy)]
pub struct Written {
    pub status: u32,
    pub count: u32,
}

// A writing call refuses with a number.
pub fn refuse(status: u32) -> Written
    ensures { result ≡ refused status }
{
    Written { status, count: 0 }
}

// A writing call is done, with the count of bytes.
pub fn done(count: u32) -> Written
    ensures { result ≡ wrote count }
{
    Written { status: 0, count }
}

impl From<Result<u32, Refusal>> for Written {
    ghost use Rattle.answers.specs.Working.Refusals.{written};

    ghost from_gives = { λ outcome answer. answer ≡ written outcome };

    fn from(outcome: Result<u32, Refusal>) -> Written {
        match outcome {
            Ok(count) => done(count),
            Err(refusal) => refuse(refusal.into()),
        }
    }
}
