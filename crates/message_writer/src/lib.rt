// Laying messages and zero fill into a datagram (document 02, K6; M.2092-1, Annex 4, 4.9).
#![tactic(auto)]

ghost use Rattle.std.specs.Prelude.{◌≡◌, ◌++◌, ◌+◌, ◌≤◌, length};
ghost use Rattle.lists.specs.Over.{over};
ghost use Rattle.answers.specs.Outcome.{WroteAt};
ghost use Rattle.message_writer.specs.Message.{is_no_type};
ghost use Rattle.message_writer.specs.Calls.{write_message, zero_fill};
ghost use Rattle.message_writer.specs.Working.Answer.{laid_answer};

use answers::Refusal;

// What C gets of laying: how many bytes were laid. A zero fill can be longer than 32 bits count.
#[repr(C)]
#[derive(Clone, Copy)]
pub struct Laid {
    pub status: u32,
    pub count: u64,
}

impl From<Result<usize, Refusal>> for Laid {
    ghost use Rattle.std.specs.Prelude.{◌≡◌};
    ghost use Rattle.message_writer.specs.Working.Answer.{laid_answer};

    ghost from_gives = { λ outcome answer. answer ≡ laid_answer outcome };

    fn from(outcome: Result<usize, Refusal>) -> Laid {
        match outcome {
            Ok(count) => Laid {
                status: 0,
                count: count as u64,
            },
            Err(refusal) => Laid {
                status: refusal.into(),
                count: 0,
            },
        }
    }
}

// Whether a type can't be a message's.
fn is_no_type(kind: u8) -> bool
    ensures { result ≡ is_no_type kind }
{
    matches!(kind, 0 | 81)
}

// Lays three pieces from a place on, one behind the other.
#[tactic(auto, using(crate::proofs::Bytes::three_laid))]
fn lay_three(first: &[u8], second: &[u8], third: &[u8], out: &mut [u8], at: usize)
    requires { at + (length first.now + length second.now + length third.now) ≤ length out.old }
    ensures { out.new ≡ over at (first.now ++ second.now ++ third.now) out.old }
{
    bits::lay_bytes(first, out, at);
    bits::lay_bytes(second, out, at + first.len());
    bits::lay_bytes(third, out, at + first.len() + second.len());
}

// Lays a message from a start on: its type, its total length and its source, high byte first, and its body. All refusals come before the
// first byte; the length is compared with what is left, where no sum can wrap.
#[tactic(auto, using(crate::proofs::Ways::write_laws))]
pub fn write_message(
    datagram: &mut [u8],
    start: usize,
    kind: u8,
    source: u32,
    body: &[u8],
) -> Result<usize, Refusal>
    ensures { WroteAt start (write_message start kind source body.now (length datagram.old)) datagram.old datagram.new (laid_answer result) }
{
    if start > datagram.len() {
        return Err(Refusal::PastEnd);
    }
    if is_no_type(kind) {
        return Err(Refusal::NoType);
    }
    if body.len() > 65528 {
        return Err(Refusal::LongBody);
    }
    let total = 7 + body.len();
    if total > datagram.len() - start {
        return Err(Refusal::NoRoom);
    }
    let [high, low] = (total as u16).to_be_bytes();
    let front = [kind, high, low];
    lay_three(&front, &source.to_be_bytes(), body, datagram, start);
    Ok(total)
}

// Lays zeros from a start to the end.
pub fn zero_fill(datagram: &mut [u8], start: usize) -> Result<usize, Refusal>
    ensures { WroteAt start (zero_fill start (length datagram.old)) datagram.old datagram.new (laid_answer result) }
{
    if start > datagram.len() {
        return Err(Refusal::PastEnd);
    }
    let rest = &mut datagram[start..];
    rest.fill(0);
    Ok(rest.len())
}
