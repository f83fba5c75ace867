// The links that are offered (M.2092-1, Table 4; document 01, "The links", and document 02, K4), with the patterns and tails that they use.
#![tactic(auto)]

mod flags;
mod link;
mod table;

ghost use Rattle.std.specs.Prelude.{◌≡◌, ◌≤◌};
ghost use Rattle.links.specs.Sizes.{open_bits, bytes_held};

pub use flags::{Flags, clocks, pattern, tail};
pub use link::{BlockBits, Link};
pub use table::{has_row, image_length_at, place_of, row_at};

// A row of Table 4. A pattern or tail is named by its printed name as a hexadecimal number: 0x7a is pattern 7a. The names are numbers and no
// enum, since the definitions `rows` and `no_row` have them so, the latter 0.
#[derive(Clone, Copy)]
pub struct Row {
    pub link: u32,
    pub k: usize,
    pub k1: usize,
    pub k2: usize,
    pub primes: [u32; 8],
    pub pattern: u32,
    pub tail: u32,
}

// The longest block and the longest image of the table's links.
pub const LONGEST_BLOCK: usize = 5616;

pub const LONGEST_IMAGE: usize = 12855;

// The bits before the check.
pub fn open_bits(row: Row) -> usize
    requires { 32 ≤ row.k }
    ensures { result ≡ open_bits row }
{
    row.k - 32
}

// The whole bytes that a row's blocks hold.
pub fn bytes_held(row: Row) -> usize
    requires { 32 ≤ row.k }
    ensures { result ≡ bytes_held row }
{
    open_bits(row) / 8
}
