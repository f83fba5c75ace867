// The bits of a datagram laid in a row, eight at a time.
ghost use Rattle.std.specs.Prelude.{◌≡◌, ◌+◌, ◌^◌, ◌<◌, ◌≤◌, length, get_or, drop, map};
ghost use Rattle.bits.specs.Datagram.{bits_of, filled};
ghost use Rattle.bits.specs.Row.{high_first};

use bits::{Bit, lay_bits};

// Byte j of a datagram, 0 behind its end.
fn datagram_byte(datagram: &[u8], j: usize) -> u32
    ensures { (result ≡ get_or datagram.now j 0) × (result < 256) }
{
    u32::from(datagram.get(j).copied().unwrap_or(0))
}

// Up to eight bits of a datagram from bit i on, zero bits behind its end: the lowest bits of the answer. They stand in two bytes.
fn bits_from(datagram: &[u8], i: usize, count: usize) -> u32
    requires { count ≤ 8 }
    ensures { high_first count result ≡ filled count (drop i (bits_of datagram.now)) }
{
    let high = datagram_byte(datagram, i / 8);
    let low = datagram_byte(datagram, i / 8 + 1);
    (high * 256 + low) >> (16 - (i % 8 + count))
}

// Fills a row with the bits of a datagram from a bit on, zero bits behind its end: eight at a time, cut by place, since the library says
// nothing of a slice after chunks_exact_mut, and the rest.
pub fn unpack<B: Bit>(datagram: &[u8], from: usize, row: &mut [B])
    requires { from + length row.old < 2 ^ 64 }
    ensures { row.new ≡ map B.holding (filled (length row.old) (drop from (bits_of datagram.now))) }
{
    let whole = row.len() / 8 * 8;
    for at in (0..whole).step_by(8) {
        lay_bits(bits_from(datagram, from + at, 8), &mut row[at..at + 8]);
    }
    let rest = &mut row[whole..];
    lay_bits(bits_from(datagram, from + whole, rest.len()), rest);
}
