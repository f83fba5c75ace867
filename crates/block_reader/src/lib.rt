// Reading a block (document 01, "Numbers a caller gets back"): the one block that may stand for what came is made of its k bits, and
// answered if it is valid and its image is within one place of what came.
#![tactic(auto)]

ghost use Rattle.std.specs.Prelude.{◌≡◌, map, ◌≤◌, length};
ghost use Rattle.answers.specs.Outcome.{Wrote};
ghost use Rattle.bits.specs.Bits.{is_one};
ghost use Rattle.links.specs.Sizes.{bytes_held, image_length};
ghost use Rattle.blocks.specs.Reading.{read_by_trying};
ghost use Rattle.blocks.specs.Working.Answer.{block_answer};
ghost use Rattle.blocks.specs.Calls.{answered, read_block};
ghost use Rattle.block_reader.specs.Working.Mends.{Mends};

use accepting::{accept, over_zero};
use answers::Refusal;
use blocks::{Came, Found};
use links::{LONGEST_BLOCK, LONGEST_IMAGE, Link};
use lists::cleared;
use received::receive;

// Inverts the bit that the register tells of, where the row does not close; refuses where no one bit makes it close.
#[tactic(auto, using(crate::proofs::Mending::flip_stored), unfolding(distance::specs::Working::Candidate::candidate))]
fn mend(u: &mut [bool]) -> Result<(), Refusal>
    ensures { Mends u.old u.new result }
{
    let register = check32::register(check32::load(), u);
    if register == 0 {
        return Ok(());
    }
    let after = check32::bits_after(register, u.len()).ok_or(Refusal::NoBlock)?;
    let place = u.len() - (after + 1);
    u[place] = !u[place];
    Ok(())
}

// Reads what came into a buffer with room for the datagram. u and image are scratch.
#[tactic(auto, using(crate::proofs::Candidate::candidate_laws), unfolding(lists::specs::Over::over))]
fn read_with(came: Came, u: &mut [bool], image: &mut [u8], out: &mut [u8]) -> Result<Found, Refusal>
    requires { (length u.old ≡ came.link.row.k) × (length image.old ≡ image_length came.link.row) × (bytes_held came.link.row ≤ length out.old) }
    ensures { Wrote (answered came.entry.link.row (map is_one came.entry.bits.now) (read_by_trying came.entry.link.row (map is_one came.entry.bits.now))) out.old out.new (block_answer result) }
{
    receive(came, image, u);
    mend(u)?;
    if !over_zero(came.link, u) {
        return Err(Refusal::NoBlock);
    }
    accept(came, u, 1, Refusal::NoBlock, image, out)
}

// The same, with scratch of its own.
#[tactic(auto, using(crate::proofs::Scratch::lent))]
fn read_came(came: Came, out: &mut [u8]) -> Result<Found, Refusal>
    requires { bytes_held came.link.row ≤ length out.old }
    ensures { Wrote (answered came.entry.link.row (map is_one came.entry.bits.now) (read_by_trying came.entry.link.row (map is_one came.entry.bits.now))) out.old out.new (block_answer result) }
{
    let mut u = cleared::<bool, LONGEST_BLOCK>(false);
    let mut image = cleared::<u8, LONGEST_IMAGE>(0);
    let k = came.link.row.k;
    let size = came.link.size;
    read_with(came, &mut u[..k], &mut image[..size], out)
}

// Reads what came on a link as a block, and lays its datagram at the buffer's start.
#[tactic(auto, unfolding(blocks::specs::Calls::read_block, lists::specs::Over::over))]
pub fn read(link: u32, bits: &[u8], out: &mut [u8]) -> Result<Found, Refusal>
    ensures { Wrote (read_block link bits.now (length out.old)) out.old out.new (block_answer result) }
{
    let link = Link::find(link).ok_or(Refusal::NotOffered)?;
    if bits.len() != link.size {
        return Err(Refusal::WrongLength);
    }
    if out.len() < link.bytes_held() {
        return Err(Refusal::NoRoom);
    }
    if !bits::all_bits(bits) {
        return Err(Refusal::NoBit);
    }
    read_came(Came { link, bits }, out)
}
