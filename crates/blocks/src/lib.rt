// Blocks (document 01, "From datagram to block"): what a datagram's block and its image are, what the calls on them answer, and their laws.
// The code stands above, in block_writer and block_reader.
#![tactic(auto)]

ghost use Rattle.std.specs.Prelude.{◌≡◌, true, length};
ghost use Rattle.bits.specs.Bits.{all_bits};
ghost use Rattle.links.specs.Sizes.{image_length};
ghost use Rattle.blocks.specs.Calls.{refused};

use answers::Refusal;
use links::Link;

// What came on a link: as many bytes as its images have bits, and each a bit.
#[derive(Clone, Copy)]
pub struct Came<'a> {
    pub link: Link,
    pub bits: &'a [u8],
    ghost size: { length bits.now ≡ image_length link.row },
    ghost all: { all_bits bits.now ≡ true },
}

// A datagram that was read: its bytes, and in how many places its block's image differs from what came.
#[derive(Clone, Copy)]
pub struct Found {
    pub count: u32,
    pub wrong: u32,
}

// What C gets of reading a block.
#[repr(C)]
#[derive(Clone, Copy)]
pub struct Block {
    pub status: u32,
    pub count: u32,
    pub wrong: u32,
}

// Reading refuses with a number.
pub fn refuse(status: u32) -> Block
    ensures { result ≡ (refused status).answer }
{
    Block {
        status,
        count: 0,
        wrong: 0,
    }
}

impl From<Result<Found, Refusal>> for Block {
    ghost use Rattle.std.specs.Prelude.{◌≡◌};
    ghost use Rattle.blocks.specs.Working.Answer.{block_answer};

    ghost from_gives = { λ outcome answer. answer ≡ block_answer outcome };

    fn from(outcome: Result<Found, Refusal>) -> Block {
        match outcome {
            Ok(found) => Block {
                status: 0,
                count: found.count,
                wrong: found.wrong,
            },
            Err(refusal) => refuse(refusal.into()),
        }
    }
}
