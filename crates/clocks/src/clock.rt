// What a clock passes on (M.2092-1, Annex 2, 1.2.4.4): the six bits that both encoders put out, each as often as its flag says.
ghost use Rattle.std.specs.Prelude.{◌≡◌, [], ◌∷◌, map, ◌%◌, length, replicate};
ghost use Rattle.lists.specs.Over.{Room};
ghost use Rattle.lists.specs.Working.Laying.{Lays};
ghost use Rattle.bits.specs.Bits.{byte};
ghost use Rattle.turbo.specs.Encoder.{start, next, y0, y1};
ghost use Rattle.turbo.specs.Coded.{six, passed};

use encoder::{Register, y0, y1};

// The registers of the two encoders.
#[derive(Clone, Copy)]
pub struct Registers {
    pub a: Register,
    pub b: Register,
}

// The bit of the one clock that was shifted in.
fn lowest(taps: u32) -> u8
    ensures { result ≡ taps % 2 }
{
    (taps & 1) as u8
}

// X Y0 Y1 of a clock of one encoder.
fn three(register: Register, u: bool) -> [u8; 3]
    ensures { result ≡ map byte (u ∷ y0 register u ∷ y1 register u ∷ []) }
{
    let fed = register.one(u);
    [u8::from(u), lowest(y0(fed)), lowest(y1(fed))]
}

impl Registers {
    // Both all zero, as a block begins.
    pub fn start() -> Registers
        ensures { (result.a ≡ start) × (result.b ≡ start) }
    {
        Registers {
            a: Register::start(),
            b: Register::start(),
        }
    }

    // X Y0 Y1 X' Y'0 Y'1 of a clock with the inputs u and v, one to a byte.
    pub fn six(&self, u: bool, v: bool) -> [u8; 6]
        ensures { result ≡ map byte (six self.now.a self.now.b u v) }
    {
        let first = three(self.a, u);
        let second = three(self.b, v);
        [
            first[0], first[1], first[2], second[0], second[1], second[2],
        ]
    }

    // The registers after a clock.
    pub fn next(self, u: bool, v: bool) -> Registers
        ensures { (result.a ≡ next self.a u) × (result.b ≡ next self.b v) }
    {
        Registers {
            a: Register::last(self.a.one(u)),
            b: Register::last(self.b.one(v)),
        }
    }
}

// What a flag above 2 would pass on, which no pattern or tail has. It stays a call, so that its memset stands in the archive once.
#[cold]
#[inline(never)]
fn fill_part(byte: u8, part: &mut [u8])
    ensures { part.new ≡ replicate (length part.old) byte }
{
    part.fill(byte);
}

// Lays one byte as often as its flag says; answers the place behind. The place goes beside its buffer, here and where it comes from, as in
// `Lays`: a part of the buffer, cut anew for each byte, is no plainer. One and two are stores of their own: a `fill` is a call of memset.
fn pass(flag: u8, byte: u8, at: usize, out: &mut [u8]) -> usize
    requires { Room at (replicate flag byte) out.old }
    ensures { Lays at (replicate flag byte) out.old out.new result }
{
    let end = at + usize::from(flag);
    match flag {
        0 => {}
        1 => out[at] = byte,
        2 => {
            out[at] = byte;
            out[at + 1] = byte;
        }
        _ => fill_part(byte, &mut out[at..end]),
    }
    end
}

// Lays what the flags of a clock pass on of its six; answers the place behind.
pub fn lay(flags: [u8; 6], six: [u8; 6], at: usize, out: &mut [u8]) -> usize
    requires { Room at (passed flags six) out.old }
    ensures { Lays at (passed flags six) out.old out.new result }
{
    let mut to = at;
    for (&flag, &byte) in flags.iter().zip(&six) {
        to = pass(flag, byte, to, out);
    }
    to
}
