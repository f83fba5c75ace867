// A row of bits packed over those of a datagram: the byte in which it begins, whole bytes, and the byte in which it ends.
ghost use Rattle.std.specs.Prelude.{◌≡◌, ◌+◌, ◌-◌, ◌*◌, ◌≤◌, length, map};
ghost use Rattle.lists.specs.Over.{over};
ghost use Rattle.datagrams.specs.Working.Packed.{packed_over};
ghost use Rattle.bits.specs.Row.{high_first};

use bits::{Bit, lay_bits, number_of, split_byte};
use std::cmp;

// A byte with bits laid over its own from one of them on.
fn byte_over<B: Bit>(old: u8, from: usize, bits: &[B]) -> u8
    requires { from + length bits.now ≤ 8 }
    ensures { high_first 8 result ≡ over from (map B.value bits.now) (high_first 8 old) }
{
    let mut own = [false; 8];
    lay_bits(u32::from(old), &mut own);
    lay_bits(number_of(bits), &mut own[from..from + bits.len()]);
    number_of(&own) as u8
}

// Lays bits over those of byte j of a datagram, from one of them on.
fn pack_part<B: Bit>(bits: &[B], j: usize, from: usize, out: &mut [u8])
    requires { (from + length bits.now ≤ 8) × (length bits.now ≤ length out.old * 8 - (j * 8 + from)) }
    ensures { out.new ≡ packed_over (j * 8 + from) (map B.value bits.now) out.old }
{
    if !bits.is_empty() {
        out[j] = byte_over(out[j], from, bits);
    }
}

// Lays the bits of a row over those of a datagram from byte j on: whole bytes, and then the rest. The byte's place is counted, since nothing
// is known of a slice behind a `zip` with its iter_mut.
fn pack_from<B: Bit>(row: &[B], j: usize, out: &mut [u8])
    requires { length row.now ≤ length out.old * 8 - j * 8 }
    ensures { out.new ≡ packed_over (j * 8) (map B.value row.now) out.old }
{
    let mut rest = row;
    let mut at = j;
    while let Some((byte, behind)) = split_byte(rest) {
        out[at] = byte;
        at += 1;
        rest = behind;
    }
    pack_part(rest, at, 0, out);
}

// Lays a row of bits over those of a datagram from a bit on; the datagram's other bits stay.
pub fn pack<B: Bit>(row: &[B], at: usize, out: &mut [u8])
    requires { at + length row.now ≤ length out.old * 8 }
    ensures { out.new ≡ packed_over at (map B.value row.now) out.old }
{
    let from = at % 8;
    let (head, rest) = row.split_at(cmp::min(8 - from, row.len()));
    pack_part(head, at / 8, from, out);
    pack_from(rest, at / 8 + 1, out);
}
