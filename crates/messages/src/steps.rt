// Stepping through the messages of a datagram (document 01, "Messages in a datagram"; document 02, K1 and K3; M.2092-1, Annex 4, 4.9).
ghost use Rattle.std.specs.Prelude.{◌≡◌, ◌<◌, ◌≤◌, length, get_or};
ghost use Rattle.messages.specs.Step.{zeros_at, message_at, step_message};
ghost use Rattle.messages.specs.Working.Answer.{step_answer};
ghost use Rattle.messages.specs.Working.Turn.{Says};

use crate::{Fault, Message};
use std::ops::ControlFlow;

// What a step of a bounded number of turns comes to: its answer, or the place behind the fill that it passed over.
type Turn = ControlFlow<Result<Option<Message>, Fault>, usize>;

// How deep the step and the fill call each other before the loop goes on: a long run of fill must not overrun the stack.
const TURNS: usize = 16;

// Where the zero fill begins, all must be 0.
fn zeros_at(left: &[u8]) -> Result<Option<Message>, Fault>
    ensures { step_answer result ≡ zeros_at left.now }
{
    if left.iter().all(|&byte| byte == 0) {
        return Ok(None);
    }
    Err(Fault::BrokenFill)
}

// Where a message begins. Its lies are told in the order 11, 9, 12. The length that it declares is compared with what is left: added to a
// position it could wrap.
#[tactic(auto, using(crate::proofs::Ways::message_laws))]
fn message_at(start: usize, left: &[u8]) -> Result<Option<Message>, Fault>
    ensures { step_answer result ≡ message_at start left.now }
{
    let &[_, high, low, ..] = left else {
        return Err(Fault::FewLeft { start });
    };
    let length = usize::from(high) * 256 + usize::from(low);
    if length < 7 {
        return Err(Fault::SmallLength { start });
    }
    let missing = length.saturating_sub(left.len());
    if missing > 0 {
        return Err(Fault::MessagePastEnd { start, missing });
    }
    Ok(Some(Message { start, length }))
}

// A step from a place. A byte 81 is handed to the fill, a byte 0 begins the zero fill, any other a message.
#[cycle(fill_at_step_at)]
#[tactic(auto, using(crate::proofs::Ways::place_laws))]
fn step_at(datagram: &[u8], place: usize, turns: usize) -> Turn
    requires { turns ≤ 16 }
    ensures { Says datagram.now place result }
{
    if place >= datagram.len() {
        return ControlFlow::Break(Ok(None));
    }
    let left = &datagram[place..];
    match datagram[place] {
        81 => fill_at(datagram, place, turns),
        0 => ControlFlow::Break(zeros_at(left)),
        _ => ControlFlow::Break(message_at(place, left)),
    }
}

// Fill is passed over: the step again at the next byte, unless the turns are used up.
#[cycle(fill_at_step_at)]
#[tactic(auto, using(crate::proofs::Turns::passed, crate::proofs::Turns::used_up))]
fn fill_at(datagram: &[u8], place: usize, turns: usize) -> Turn
    requires place_in_bounds { place < length datagram.now }
    requires place_value { get_or datagram.now place 0 ≡ 81 }
    requires turns_bound { turns ≤ 16 }
    ensures { Says datagram.now place result }
{
    let next = place + 1;
    if turns == 0 {
        return ControlFlow::Continue(next);
    }
    step_at(datagram, next, turns - 1)
}

// The first message from a position of a datagram on, none where no more follow, or why none can be read there.
#[tactic(auto, using(crate::proofs::Ways::position_laws))]
pub fn step_message(datagram: &[u8], position: usize) -> Result<Option<Message>, Fault>
    ensures { step_answer result ≡ step_message datagram.now position }
{
    if position > datagram.len() {
        return Err(Fault::PastEnd);
    }
    let mut place = position;
    loop {
        match step_at(datagram, place, TURNS) {
            ControlFlow::Break(outcome) => return outcome,
            ControlFlow::Continue(next) => place = next,
        }
    }
}
