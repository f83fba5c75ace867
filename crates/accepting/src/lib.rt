// Accepting a block for what came (document 01, "Numbers a caller gets back"): whether its bits over are zero, in how many places its image
// differs, and its datagram where these are few enough. Whoever proposes the block chooses the limit, and the refusal beyond it.
#![tactic(auto)]

ghost use Rattle.std.specs.Prelude.{◌≡◌, ℕ, map, ◌≤◌, leb, length, IfErr};
ghost use Rattle.std.specs.Bool.{then_some};
ghost use Rattle.answers.specs.Outcome.{Wrote};
ghost use Rattle.bits.specs.Bits.{is_one, all_zero};
ghost use Rattle.bits.specs.Row.{differences};
ghost use Rattle.links.specs.Sizes.{bytes_held, image_length};
ghost use Rattle.blocks.specs.Block.{image_of};
ghost use Rattle.blocks.specs.Near.{bits_over};
ghost use Rattle.accepting.specs.Working.Within.{within, numbered};

use bits::Bit;
use blocks::{Came, Found};
use links::{BlockBits, Link};

// Whether the bits over, which stand before the check, are zero.
pub fn over_zero<B: Bit>(link: Link, u: &[B]) -> bool
    requires { length u.now ≡ link.row.k }
    ensures { result ≡ all_zero (bits_over link.row (map B.value u.now)) }
{
    let bits_over = &u[link.bytes_held() * 8..link.open_bits()];
    bits_over.iter().all(|&bit| !bit.is_one())
}

// In how many places the image of a block differs from what came, where they are not more than a limit. image is scratch.
fn compare(came: Came, u: &[bool], limit: usize, image: &mut [u8]) -> Option<usize>
    requires { (length u.now ≡ came.link.row.k) × (length image.old ≡ image_length came.link.row) }
    ensures { result ≡ then_some (leb (differences (image_of came.entry.link.row u.now) (map is_one came.entry.bits.now)) limit) (differences (image_of came.entry.link.row u.now) (map is_one came.entry.bits.now)) }
{
    let block = BlockBits {
        link: came.link,
        bits: u,
    };
    images::lay_image(block, image);
    bits::differences_up_to(image, came.bits, limit)
}

// Answers a block whose image is within a limit of what came, else refuses with what the caller gives for it. image is scratch.
#[tactic(auto, using(links::proofs::Facts::sizes), unfolding(crate::specs::Working::Within::within, lists::specs::Over::over))]
pub fn accept<E: Copy>(
    came: Came,
    u: &[bool],
    limit: usize,
    refusal: E,
    image: &mut [u8],
    out: &mut [u8],
) -> Result<Found, E>
    requires { (length u.now ≡ came.link.row.k) × (length image.old ≡ image_length came.link.row) × (bytes_held came.link.row ≤ length out.old) }
    ensures refuses { IfErr result (λ given. given ≡ refusal) }
    ensures answers { (number : ℕ) → Wrote (within limit number came.entry.link.row (map is_one came.entry.bits.now) u.now) out.old out.new (numbered number result) }
{
    let wrong = compare(came, u, limit, image).ok_or(refusal)?;
    let held = came.link.bytes_held();
    datagrams::pack(&u[..held * 8], 0, out);
    Ok(Found {
        count: held as u32,
        wrong: wrong as u32,
    })
}
