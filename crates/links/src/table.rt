// Table 4: link, k, k1, k2, the primes p1 .. p8, pattern and tail; and N, the bits of an image, which is what the clocks and the tail pass
// on, proved to be that sum. Link 4's k2 is printed as 240; its k makes it 238.
ghost use Rattle.std.specs.Prelude.{◌≡◌, ◌↔◌, true, ◌<◌, ltb, length, get_or, IsSome, IfSome};
ghost use Rattle.links.specs.Rows.{rows, no_row, place, offered, row_of};
ghost use Rattle.links.specs.Sizes.{image_length};

use crate::Row;

// How many rows it has.
const ROWS: usize = 23;

#[rattlefmt::skip]
const TABLE_4: [(u32, usize, usize, usize, [u32; 8], u32, u32, usize); ROWS] = [
    (4, 952, 4, 238, [113, 31, 59, 163, 29, 181, 101, 11], 0x8, 0x8, 1281),
    (5, 288, 2, 144, [47, 17, 233, 127, 239, 139, 199, 163], 0x8, 0x8b, 394),
    (6, 672, 2, 336, [37, 101, 191, 149, 79, 131, 229, 31], 0x8, 0x8b, 906),
    (7, 1056, 4, 264, [23, 31, 167, 223, 59, 113, 47, 211], 0x8, 0x8b, 1418),
    (8, 192, 2, 96, [31, 37, 43, 47, 53, 59, 61, 67], 0x6, 0x6, 396),
    (9, 448, 2, 224, [31, 37, 43, 47, 53, 59, 61, 67], 0x6, 0x6, 908),
    (10, 704, 2, 352, [31, 37, 43, 47, 53, 59, 61, 67], 0x6, 0x6, 1420),
    (11, 432, 2, 216, [127, 191, 241, 5, 83, 109, 107, 179], 0x6, 0x6a, 874),
    (12, 972, 2, 486, [31, 37, 43, 47, 53, 59, 61, 67], 0x8, 0x8, 1308),
    (13, 1296, 2, 648, [31, 37, 43, 47, 53, 59, 61, 67], 0x8, 0x8, 1740),
    (14, 896, 2, 448, [31, 37, 43, 47, 53, 59, 61, 67], 0x6, 0x6, 1804),
    (15, 2016, 4, 504, [31, 37, 43, 47, 53, 59, 61, 67], 0x8, 0x8, 2700),
    (16, 2688, 4, 672, [31, 37, 43, 47, 53, 59, 61, 67], 0x8, 0x8, 3596),
    (17, 1872, 6, 312, [211, 61, 227, 239, 181, 79, 73, 193], 0x6, 0x6a, 3754),
    (18, 4032, 4, 1008, [31, 37, 43, 47, 53, 59, 61, 67], 0x8, 0x8, 5388),
    (19, 5616, 16, 351, [137, 101, 223, 41, 67, 131, 61, 47], 0x8, 0x8, 7500),
    (20, 96, 2, 48, [37, 83, 211, 61, 107, 101, 149, 167], 0x2, 0x2a, 402),
    (21, 736, 2, 368, [139, 17, 241, 47, 109, 11, 29, 163], 0x7a, 0x7a, 1112),
    (22, 3120, 16, 195, [89, 47, 239, 17, 127, 59, 43, 31], 0x7a, 0x7b, 4692),
    (23, 4544, 4, 1136, [31, 37, 43, 47, 53, 59, 61, 67], 0x7b, 0x7b, 6828),
    (25, 4776, 12, 398, [31, 37, 43, 47, 53, 59, 61, 67], 0x6, 0x6a, 9562),
    (32, 312, 2, 156, [37, 79, 29, 139, 151, 97, 181, 157], 0x2, 0x2e, 1269),
    (33, 4280, 8, 535, [59, 37, 157, 167, 239, 83, 163, 29], 0x4, 0x4a, 12855),
];

// The place of a link's row, or the number of rows where the link is not offered. It stays a call: inlined, each place would have its row's code.
#[inline(never)]
pub fn place_of(link: u32) -> usize
    ensures { result ≡ place link }
{
    TABLE_4
        .iter()
        .position(|entry| entry.0 == link)
        .unwrap_or(ROWS)
}

// Whether a row stands at a place of the table.
#[tactic(auto, unfolding(crate::specs::Rows::rows))]
pub fn has_row(place: usize) -> bool
    ensures { result ≡ ltb place (length rows) }
{
    place < ROWS
}

// The row at a place of the table.
#[tactic(auto, unfolding(crate::specs::Rows::rows))]
pub fn row_at(place: usize) -> Row
    requires { place < length rows }
    ensures { result ≡ get_or rows place no_row }
{
    // field by field: an entry by reference would be a table of addresses in the archive (host/archive.symbols), and one by value is built on the stack
    Row {
        link: TABLE_4[place].0,
        k: TABLE_4[place].1,
        k1: TABLE_4[place].2,
        k2: TABLE_4[place].3,
        primes: TABLE_4[place].4,
        pattern: TABLE_4[place].5,
        tail: TABLE_4[place].6,
    }
}

// N of the row at a place of the table.
#[tactic(auto, unfolding(crate::specs::Rows::rows))]
pub fn image_length_at(place: usize) -> usize
    requires { place < length rows }
    ensures { result ≡ image_length (get_or rows place no_row) }
{
    TABLE_4[place].7
}

// The row of a link that is offered, and its N.
#[tactic(auto, unfolding(crate::specs::Rows::offered, crate::specs::Rows::row_of))]
pub fn find(number: u32) -> Option<(Row, usize)>
    ensures offered { IsSome result ↔ (offered number ≡ true) }
    ensures found { IfSome result (λ (row, size). (row ≡ row_of number) × (size ≡ image_length (row_of number))) }
{
    let place = place_of(number);
    if !has_row(place) {
        return None;
    }
    Some((row_at(place), image_length_at(place)))
}
