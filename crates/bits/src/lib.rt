// Bits in rows (document 01, "What the module does"): the test that a byte is a bit, bits as a number and back, what is laid over a
// buffer, and the number of places where two words or two rows differ.
#![tactic(auto)]

mod bit;

ghost use Rattle.std.specs.Prelude.{◌≡◌, ◌↔◌, map, true, ◌<◌, ◌≤◌, leb, length, take, drop, IsNone, IfSome};
ghost use Rattle.std.specs.Bool.{then_some};
ghost use Rattle.std.specs.Int.Bits.{bit_xor};
ghost use Rattle.std.specs.Int.Count.{ones};
ghost use Rattle.lists.specs.Over.{over, Room};
ghost use Rattle.bits.specs.Bits.{all_bits, is_one};
ghost use Rattle.bits.specs.Row.{high_first, number, differences};

pub use bit::Bit;

// Whether every byte is 0 or 1.
pub fn all_bits(bytes: &[u8]) -> bool
    ensures { result ≡ all_bits bytes.now }
{
    bytes.iter().all(|&byte| byte <= 1)
}

// The number that a row of up to 32 bits makes, the first the highest.
#[tactic(auto, using(crate::proofs::Row::number_more, crate::proofs::Row::number_small), unfolding(crate::specs::Row::number_on))]
pub fn number_of<B: Bit>(row: &[B]) -> u32
    requires { length row.now ≤ 32 }
    ensures { result ≡ number (map B.value row.now) }
{
    let mut word: u32 = 0;
    for &cell in row {
        word = word * 2 + u32::from(cell.is_one());
    }
    word
}

// Lays the lowest bits of a number, the highest of them first, one to each cell of a row.
pub fn lay_bits<B: Bit>(word: u32, row: &mut [B])
    requires { length row.old ≤ 32 }
    ensures { row.new ≡ map B.holding (high_first (length row.old) word) }
{
    let mut behind = row.len();
    for cell in row {
        behind -= 1;
        *cell = B::from_bit((word >> behind) % 2 == 1);
    }
}

// Lays bytes, bits or not, over a buffer from a place on, which callers have beside the buffer. It is a loop over indices, since
// copy_from_slice is compiled here into memmove, which the archive must not ask of a host (host/archive.symbols).
pub fn lay_bytes(bytes: &[u8], out: &mut [u8], at: usize)
    requires { Room at bytes.now out.old }
    ensures { out.new ≡ over at bytes.now out.old }
{
    for i in 0..bytes.len() {
        out[at + i] = bytes[i];
    }
}

// The byte that a row of bits begins with, the first of its eight the highest, and the bits behind it.
#[tactic(auto, using(crate::proofs::Datagram::byte_small))]
pub fn split_byte<B: Bit>(row: &[B]) -> Option<(u8, &[B])>
    ensures short { IsNone result ↔ (length row.now < 8) }
    ensures split { IfSome result (λ (byte, behind). (byte ≡ number (take 8 (map B.value row.now))) × (behind.now ≡ drop 8 row.now)) }
{
    let (eight, behind) = row.split_at_checked(8)?;
    Some((number_of(eight) as u8, behind))
}

// In how many places two words differ.
pub fn distance(a: u32, b: u32) -> u32
    ensures { result ≡ ones (bit_xor a b) }
{
    (a ^ b).count_ones()
}

// In how many places two rows differ, where they are not more than a limit.
pub fn differences_up_to(a: &[u8], b: &[u8], limit: usize) -> Option<usize>
    requires { (length a.now ≡ length b.now) × (all_bits a.now ≡ true) × (all_bits b.now ≡ true) }
    ensures { result ≡ then_some (leb (differences (map is_one a.now) (map is_one b.now)) limit) (differences (map is_one a.now) (map is_one b.now)) }
{
    let count = a.iter().zip(b).filter(|(x, y)| x != y).count();
    (count <= limit).then_some(count)
}
