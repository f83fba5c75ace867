// A link as the coder has it: its row, which it may rely on, N, what its clocks pass on, and the bits of one of its blocks.
ghost use Rattle.std.specs.Prelude.{◌≡◌, ◌↔◌, true, T, length, IsSome, IfSome};
ghost use Rattle.links.specs.Rows.{offered, row_of};
ghost use Rattle.links.specs.Patterns.{pattern_of, tail_of};
ghost use Rattle.links.specs.Sizes.{open_bits, bytes_held, image_length};
ghost use Rattle.links.specs.Working.Clocks.{clocks_of};
ghost use Rattle.links.specs.Working.Good.{good_row};

use crate::flags::{Flags, clocks, pattern, tail};
use crate::{Row, table};

// An offered link. Its size is N, the bits of an image.
#[derive(Clone, Copy)]
pub struct Link {
    pub row: Row,
    pub size: usize,
    ghost good: { T (good_row row) },
    ghost sized: { size ≡ image_length row },
}

// The k bits of a block of a link.
#[derive(Clone, Copy)]
pub struct BlockBits<'a> {
    pub link: Link,
    pub bits: &'a [bool],
    ghost whole: { length bits.now ≡ link.row.k },
}

impl Link {
    // The link of a number, if it is offered.
    #[tactic(auto, using(crate::proofs::Good::good))]
    pub fn find(number: u32) -> Option<Link>
        ensures offered { IsSome result ↔ (offered number ≡ true) }
        ensures found { IfSome result (λ link. link.row ≡ row_of number) }
    {
        let (row, size) = table::find(number)?;
        Some(Link { row, size })
    }

    // The bits before the check.
    #[tactic(auto, using(crate::proofs::Facts::sizes))]
    pub fn open_bits(self) -> usize
        ensures { result ≡ open_bits self.row }
    {
        crate::open_bits(self.row)
    }

    // The whole bytes that it holds.
    #[tactic(auto, using(crate::proofs::Facts::sizes))]
    pub fn bytes_held(self) -> usize
        ensures { result ≡ bytes_held self.row }
    {
        crate::bytes_held(self.row)
    }

    // What its clocks pass on.
    pub fn flags(self) -> Flags
        ensures { (clocks_of result ≡ pattern_of self.row.pattern) × (result.tail ≡ tail_of self.row.tail) }
    {
        Flags {
            pattern: pattern(self.row.pattern),
            period: clocks(self.row.pattern),
            tail: tail(self.row.tail),
        }
    }
}
