// Reading a slot burst: its head, and then the rest as a block of the link that the head names.
ghost use Rattle.std.specs.Prelude.{length};
ghost use Rattle.answers.specs.Outcome.{Wrote};
ghost use Rattle.slots.specs.Calls.{read_slot};
ghost use Rattle.slots.specs.Working.Answer.{slot_answer};

use crate::{Found, head};
use answers::Refusal;

// Reads a slot burst, and lays its datagram at the buffer's start.
#[tactic(auto, using(crate::proofs::Reading::slot_reading), unfolding(crate::specs::Calls::read_slot))]
pub fn read(burst: &[u8], out: &mut [u8]) -> Result<Found, Refusal>
    ensures { Wrote (read_slot burst.now (length out.old)) out.old out.new (slot_answer result) }
{
    let head = head::read(burst)?;
    let block = block_reader::read(head.word.number, &burst[86..], out)?;
    Ok(Found { head, block })
}
