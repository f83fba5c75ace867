// From the bits of a block to its image: interleaved, coded, ended and scrambled. The writer and the reader of blocks share this encoder.
#![tactic(auto)]

ghost use Rattle.std.specs.Prelude.{◌≡◌, ◌≤◌, map, length};
ghost use Rattle.lists.specs.Over.{over};
ghost use Rattle.bits.specs.Bits.{byte};
ghost use Rattle.links.specs.Sizes.{image_length};
ghost use Rattle.turbo.specs.Coded.{coded};
ghost use Rattle.blocks.specs.Block.{image_of};

use clocks::Inputs;
use groups::encode;
use interleaver::interleave;
use links::{BlockBits, LONGEST_BLOCK};
use lists::cleared;
use scrambler::Scrambler;

// Lays the coded bits of a block, N of them.
fn lay_coded(block: BlockBits, out: &mut [u8])
    requires { length out.old ≡ image_length block.link.row }
    ensures { out.new ≡ map byte (coded block.entry.link.row block.entry.bits.now) }
{
    let mut scratch = cleared::<bool, LONGEST_BLOCK>(false);
    let v = &mut scratch[..block.bits.len()];
    interleave(block, v);
    encode(Inputs { u: block.bits, v }, block.link.flags(), out);
}

// Lays the image of a block at the buffer's start.
pub fn lay_image(block: BlockBits, out: &mut [u8])
    requires { image_length block.link.row ≤ length out.old }
    ensures { out.new ≡ over 0 (map byte (image_of block.entry.link.row block.entry.bits.now)) out.old }
{
    let image = &mut out[..block.link.size];
    lay_coded(block, image);
    Scrambler::load().scramble(image);
}
