// What a step through the messages of a datagram finds (document 01, "Messages in a datagram"; document 02, K1 and K3), and what C gets of it.
#![tactic(auto)]

mod steps;

ghost use Rattle.std.specs.Prelude.{◌≡◌, ◌≤◌};
ghost use Rattle.answers.specs.Working.Refusals.{number_of};
ghost use Rattle.messages.specs.Step.{lie};

use answers::Refusal;
pub use steps::step_message;

// A message: where it starts, and its length, which counts its type, itself and the source. So none is taken for the end, where C gets zeros.
#[derive(Clone, Copy)]
pub struct Message {
    pub start: usize,
    pub length: usize,
    ghost whole: { 7 ≤ length },
}

// Why no message can be read: a message that lies is told of with its place, and one that runs past the end with the bytes that are missing.
#[derive(Clone, Copy, Debug, PartialEq, Eq)]
pub enum Fault {
    PastEnd,
    BrokenFill,
    FewLeft { start: usize },
    SmallLength { start: usize },
    MessagePastEnd { start: usize, missing: usize },
}

// What C gets of a step: where a message starts, also one that lies, its length, and how many bytes are missing of one that runs past the
// end.
#[repr(C)]
#[derive(Clone, Copy)]
pub struct Step {
    pub status: u32,
    pub start: u64,
    pub length: u64,
    pub missing: u64,
}

// A refusal, with the place of a lie and the bytes that are missing.
fn refuse(refusal: Refusal, start: usize, missing: usize) -> Step
    ensures { result ≡ lie (number_of refusal) start missing }
{
    Step {
        status: refusal.into(),
        start: start as u64,
        length: 0,
        missing: missing as u64,
    }
}

impl From<Fault> for Step {
    ghost use Rattle.std.specs.Prelude.{◌≡◌, Err};
    ghost use Rattle.messages.specs.Working.Answer.{step_answer};

    ghost from_gives = { λ fault answer. answer ≡ step_answer (Err fault) };

    fn from(fault: Fault) -> Step {
        match fault {
            Fault::PastEnd => refuse(Refusal::PastEnd, 0, 0),
            Fault::BrokenFill => refuse(Refusal::BrokenFill, 0, 0),
            Fault::FewLeft { start } => refuse(Refusal::FewLeft, start, 0),
            Fault::SmallLength { start } => refuse(Refusal::SmallLength, start, 0),
            Fault::MessagePastEnd { start, missing } => {
                refuse(Refusal::MessagePastEnd, start, missing)
            }
        }
    }
}

impl From<Result<Option<Message>, Fault>> for Step {
    ghost use Rattle.std.specs.Prelude.{◌≡◌};
    ghost use Rattle.messages.specs.Working.Answer.{step_answer};

    ghost from_gives = { λ outcome answer. answer ≡ step_answer outcome };

    fn from(outcome: Result<Option<Message>, Fault>) -> Step {
        match outcome {
            Ok(Some(message)) => Step {
                status: 0,
                start: message.start as u64,
                length: message.length as u64,
                missing: 0,
            },
            Ok(None) => Step {
                status: 0,
                start: 0,
                length: 0,
                missing: 0,
            },
            Err(fault) => fault.into(),
        }
    }
}
