// A group of 24 clocks at a time (M.2092-1, Annex 2, 1.2.4.4): where the pattern begins again after them, every group passes on the same
// places of what its clocks put out. Each of X, Y0, Y1, X', Y'0, Y'1 is a number with a bit to each clock, the first the highest.
ghost use Rattle.std.specs.Prelude.{◌≡◌, map, ◌%◌, ◌<◌, eqb, length};
ghost use Rattle.lists.specs.Over.{Room};
ghost use Rattle.lists.specs.Working.Laying.{Lays};
ghost use Rattle.links.specs.Working.Clocks.{clocks_of};
ghost use Rattle.groups.specs.Working.Together.{passed_from};
ghost use Rattle.groups.specs.Working.Group.{places_of, places_from, digit, Puts};

use clocks::{Inputs, Registers, lay};
use encoder::{Register, packed, y0, y1};
use links::Flags;

// What 24 clocks put out, X Y0 Y1 X' Y'0 Y'1 a number each, and the registers after them.
// There are eight numbers, the last two idle, so that every place of a byte has its number.
#[derive(Clone, Copy)]
pub struct Put {
    pub bits: [u32; 8],
    pub registers: Registers,
}

// Whether 24 clocks are whole periods.
pub fn whole(period: usize) -> bool
    requires { 0 < period }
    ensures { result ≡ eqb (24 % period) 0 }
{
    24 % period == 0
}

// The places of the six bits of clock c.
fn places_of(c: usize) -> [u8; 6]
    requires { c < 24 }
    ensures { result ≡ places_of c }
{
    let x = (23 - c) as u8;
    [x, x + 32, x + 64, x + 96, x + 128, x + 160]
}

// Lays the places that pass in a group, each at most twice; answers how many they are. c is no index: it is the clock, and names its places.
pub fn lay_places(flags: Flags, places: &mut [u8; 288]) -> usize
    ensures { Lays 0 (passed_from (clocks_of flags) 0 (places_from 0 24)) places.old places.new result }
{
    let clocks = flags.clocks();
    let mut to = 0;
    for c in 0..24 {
        to = lay(clocks[c % flags.period], places_of(c), to, places);
    }
    to
}

// What the clocks of a group put out.
pub fn put_group(registers: Registers, group: Inputs) -> Put
    requires { length group.u.now ≡ 24 }
    ensures { Puts registers.a registers.b group.entry.u.now group.entry.v.now result.bits result.registers.a result.registers.b }
{
    let x = packed(group.u);
    let y = packed(group.v);
    let a = registers.a.many(x);
    let b = registers.b.many(y);
    Put {
        bits: [x, y0(a), y1(a), y, y0(b), y1(b), 0, 0],
        registers: Registers {
            a: Register::last(a),
            b: Register::last(b),
        },
    }
}

// What stands at a place of a group.
fn digit(all: &[u32; 8], place: u8) -> u8
    ensures { result ≡ digit all.now place }
{
    ((all[usize::from(place / 32)] >> (place % 32)) % 2) as u8
}

// Lays what stands at some places of a group; answers the place behind. The buffer is indexed, since nothing is known of a slice behind a
// `zip` with its iter_mut.
pub fn lay_digits(all: [u32; 8], places: &[u8], at: usize, out: &mut [u8]) -> usize
    requires { Room at (map (digit all) places.now) out.old }
    ensures { Lays at (map (digit all) places.now) out.old out.new result }
{
    for (i, &place) in places.iter().enumerate() {
        out[at + i] = digit(&all, place);
    }
    at + places.len()
}
