// The 32-bit check (M.2092-1, Annex 2, 1.2.5): the register over rows of bits, and the bit that it tells of.
#![tactic(auto)]

mod bytes;

ghost use Rattle.std.specs.Prelude.{◌≡◌, map, ltb};
ghost use Rattle.std.specs.Bool.{then_some};
ghost use Rattle.bits.specs.Row.{high_first};
ghost use Rattle.check32.specs.Working.Bytes.{byte_marks};
ghost use Rattle.check32.specs.Check.{step, register_from, loaded};
ghost use Rattle.check32.specs.Working.Marks.{bits_after};

use bits::Bit;

// One bit goes into the register at its high end, and the register moves up a place; the generator is added where a one falls out.
pub fn step(r: u32, bit: bool) -> u32
    ensures { result ≡ step r bit }
{
    let fed = r ^ (u32::from(bit) << 31);
    (fed << 1) ^ ((fed >> 31) * 0x04C11DB7)
}

// Eight bits go in at once, the highest of a byte first: the register moves up by eight places, and what falls out of it and the byte
// together leave their mark.
fn step_byte(r: u32, byte: u8, marks: &[u32; 32]) -> u32
    requires { marks.now ≡ byte_marks }
    ensures { result ≡ register_from r (high_first 8 byte) }
{
    let out = ((r >> 24) as u8) ^ byte;
    let low = marks[usize::from(out % 16)];
    let high = marks[usize::from(out / 16) + 16];
    (r << 8) ^ (high ^ low)
}

// What the register is loaded with: all ones.
pub fn load() -> u32
    ensures { result ≡ loaded }
{
    0xFFFFFFFF
}

// The register run on over a row of bits. Loaded first, it ends at 0 where the row closes.
pub fn register<B: Bit>(from: u32, bits: &[B]) -> u32
    ensures { result ≡ register_from from (map B.value bits.now) }
{
    let marks = bytes::marks();
    let mut r = from;
    let mut rest = bits;
    while let Some((byte, behind)) = bits::split_byte(rest) {
        r = step_byte(r, byte, &marks);
        rest = behind;
    }
    // the rest, bit by bit
    for &bit in rest {
        r = step(r, bit.is_one());
    }
    r
}

// How many bits of a row of k come after the one wrong bit that leaves this register, if one bit does. n is no index: it is what is asked for.
pub fn bits_after(register: u32, k: usize) -> Option<usize>
    ensures { result ≡ then_some (ltb (bits_after register k) k) (bits_after register k) }
{
    let mut mark: u32 = 0x04C11DB7;
    for n in 0..k {
        if mark == register {
            return Some(n);
        }
        mark = step(mark, false);
    }
    None
}
