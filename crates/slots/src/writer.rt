// Writing a slot burst: its head, and then the block of the datagram. Nothing is laid before all refusals are decided.
ghost use Rattle.std.specs.Prelude.{length};
ghost use Rattle.answers.specs.Outcome.{Wrote};
ghost use Rattle.answers.specs.Working.Refusals.{written};
ghost use Rattle.slots.specs.Calls.{write_slot};

use crate::head;
use answers::Refusal;
use links::Link;

// Writes the slot burst of a datagram, one bit to a byte.
#[tactic(auto, using(crate::proofs::Writing::slot_writing), unfolding(answers::specs::Task::write_task))]
pub fn write(link: u32, datagram: &[u8], out: &mut [u8]) -> Result<u32, Refusal>
    ensures { Wrote (write_slot link datagram.now (length out.old)) out.old out.new (written result) }
{
    if !head::is_slot_link(link) {
        return Err(Refusal::NotOffered);
    }
    let row = Link::find(link).ok_or(Refusal::NotOffered)?;
    if datagram.len() > row.bytes_held() {
        return Err(Refusal::WrongLength);
    }
    let size = 86 + row.size;
    if out.len() < size {
        return Err(Refusal::NoRoom);
    }
    head::lay(link, out);
    block_writer::lay_block(row, datagram, &mut out[86..]);
    Ok(size as u32)
}
