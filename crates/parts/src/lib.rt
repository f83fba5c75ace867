// Slot bursts that come in parts (document 02, K2). The state is the caller's, a count and the bytes that are kept: any number and any
// bytes may stand there. C lends the two apart.
#![tactic(auto)]

ghost use Rattle.std.specs.Prelude.{◌≡◌, length};
ghost use Rattle.answers.specs.Outcome.{Wrote};
ghost use Rattle.slots.specs.Calls.{read_slot};
ghost use Rattle.parts.specs.State.{state, taken, heard};
ghost use Rattle.parts.specs.Taking.{TookPart};
ghost use Rattle.parts.specs.Asking.{ReadParts};
ghost use Rattle.slots.specs.Working.Answer.{slot_answer};

use answers::Refusal;
use lists::cleared;
use slots::Found;

// The bits of the longest burst, and the count at which counting stops.
const LONGEST: usize = 1504;

const STOP: u32 = 1505;

// Lays a part behind the bytes that are kept, as far as there is room, and answers the new count.
#[tactic(auto, using(crate::proofs::Growing::full, crate::proofs::Growing::cut, crate::proofs::Growing::whole))]
fn keep(count: u32, kept: &mut [u8; LONGEST], part: &[u8]) -> u32
    ensures { state result kept.new ≡ taken (state count kept.old) part.now }
{
    if count >= STOP {
        return STOP;
    }
    let at = count as usize;
    let room = LONGEST - at;
    if part.len() > room {
        bits::lay_bytes(&part[..room], kept, at);
        return STOP;
    }
    bits::lay_bytes(part, kept, at);
    count + part.len() as u32
}

// Takes a part of a burst.
pub fn take(count: &mut u32, bits: &mut [u8; LONGEST], part: &[u8])
    ensures { TookPart part.now (state count.old bits.old) (state count.new bits.new) }
{
    *count = keep(*count, bits, part);
}

// Reads what was heard. A burst that is too long is refused by its head, or else with 2. Its 86 bits alone are refused alike, so only
// they are read.
#[tactic(auto, using(crate::proofs::Hearing::hearing))]
fn read_heard(count: u32, kept: &[u8; LONGEST], out: &mut [u8]) -> Result<Found, Refusal>
    ensures { Wrote (read_slot (heard (state count kept.now)) (length out.old)) out.old out.new (slot_answer result) }
{
    if count < STOP {
        let end = count as usize;
        return slots::read(&kept[..end], out);
    }
    slots::read(&kept[..86], out)
}

// Reads the burst that came, and lays its datagram at the buffer's start.
#[tactic(auto, using(crate::proofs::Holding::cleared_blank))]
pub fn read(count: &mut u32, bits: &mut [u8; LONGEST], out: &mut [u8]) -> Result<Found, Refusal>
    ensures { ReadParts (state count.old bits.old) (state count.new bits.new) out.old out.new (slot_answer result) }
{
    let found = read_heard(*count, bits, out);
    *count = 0;
    *bits = cleared(0);
    found
}
