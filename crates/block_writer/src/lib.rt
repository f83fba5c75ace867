// Writing a block (document 01, "From datagram to block"): a datagram as the image of its block.
#![tactic(auto)]

ghost use Rattle.std.specs.Prelude.{◌≡◌, map, ◌≤◌, length};
ghost use Rattle.answers.specs.Outcome.{Wrote};
ghost use Rattle.answers.specs.Working.Refusals.{written};
ghost use Rattle.lists.specs.Over.{over};
ghost use Rattle.bits.specs.Bits.{byte};
ghost use Rattle.links.specs.Sizes.{bytes_held, image_length};
ghost use Rattle.blocks.specs.Block.{block_of, image_of};
ghost use Rattle.blocks.specs.Calls.{write_block};

use answers::Refusal;
use links::{BlockBits, LONGEST_BLOCK, Link};
use lists::cleared;

// Makes the bits of a datagram's block: the datagram, zero-filled, and its check.
fn make_block(link: Link, datagram: &[u8], u: &mut [bool])
    requires { (length u.old ≡ link.row.k) × (length datagram.now ≤ bytes_held link.row) }
    ensures { u.new ≡ block_of link.row datagram.now }
{
    let (open, check) = u.split_at_mut(link.open_bits());
    datagrams::unpack(datagram, 0, open);
    bits::lay_bits(check32::register(check32::load(), open), check);
}

// Lays the image of a datagram's block at the buffer's start.
#[tactic(auto, using(links::proofs::Facts::sizes, std::proofs::lemmas::Grind::common_steps))]
pub fn lay_block(link: Link, datagram: &[u8], out: &mut [u8])
    requires { (length datagram.now ≤ bytes_held link.row) × (image_length link.row ≤ length out.old) }
    ensures { out.new ≡ over 0 (map byte (image_of link.row (block_of link.row datagram.now))) out.old }
{
    let mut scratch = cleared::<bool, LONGEST_BLOCK>(false);
    let u = &mut scratch[..link.row.k];
    make_block(link, datagram, u);
    images::lay_image(BlockBits { link, bits: u }, out);
}

// Writes the image of a datagram's block, one bit to a byte.
#[tactic(auto, using(links::proofs::Facts::sizes), unfolding(answers::specs::Task::write_task, lists::specs::Over::over))]
pub fn write(link: u32, datagram: &[u8], out: &mut [u8]) -> Result<u32, Refusal>
    ensures { Wrote (write_block link datagram.now (length out.old)) out.old out.new (written result) }
{
    let link = Link::find(link).ok_or(Refusal::NotOffered)?;
    if datagram.len() > link.bytes_held() {
        return Err(Refusal::WrongLength);
    }
    if out.len() < link.size {
        return Err(Refusal::NoRoom);
    }
    lay_block(link, datagram, out);
    Ok(link.size as u32)
}
