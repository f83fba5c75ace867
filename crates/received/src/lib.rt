// The k bits of what came: unscrambled, and then the X of every clock.
#![tactic(auto)]

ghost use Rattle.std.specs.Prelude.{◌≡◌, map, ℕ, ◌<◌, length, slice_index, slice_index_or, []};
ghost use Rattle.bits.specs.Bits.{is_one};
ghost use Rattle.distance.specs.Working.Coding.{x_bits};
ghost use Rattle.links.specs.Patterns.{total};
ghost use Rattle.links.specs.Sizes.{image_length};
ghost use Rattle.links.specs.Working.Clocks.{clocks_of};
ghost use Rattle.turbo.specs.Working.Parity.{counts_of};
ghost use Rattle.blocks.specs.Reading.{received};

use blocks::Came;
use links::{Flags, Link};
use scrambler::Scrambler;

// How many bits the flags of a clock pass on.
fn total(flags: [u8; 6]) -> usize
    ensures { result ≡ total flags }
{
    flags.iter().map(|&flag| usize::from(flag)).sum()
}

// The same for each clock of a pattern.
fn totals(flags: Flags) -> [usize; 10]
    ensures { (c : ℕ) → c < length (clocks_of flags) → slice_index result c ≡ total (slice_index_or (clocks_of flags) c []) }
{
    let mut totals = [0; 10];
    for (c, &six) in flags.clocks().iter().enumerate() {
        totals[c] = total(six);
    }
    totals
}

// Takes the X of every clock out of coded bits: each stands behind what the clocks before it pass on.
fn take_x(link: Link, coded: &[u8], u: &mut [bool])
    requires { (length u.old ≡ link.row.k) × (length coded.now ≡ image_length link.row) }
    ensures { u.new ≡ x_bits (counts_of link.row) (map is_one coded.now) }
{
    let flags = link.flags();
    let totals = totals(flags);
    let mut at = 0;
    let mut clock = 0;
    for bit in u {
        *bit = coded[at] == 1;
        at += totals[clock];
        clock = flags.next_clock(clock);
    }
}

// The k bits of what came; plain is scratch for all of it unscrambled.
pub fn receive(came: Came, plain: &mut [u8], u: &mut [bool])
    requires { (length u.old ≡ came.link.row.k) × (length plain.old ≡ image_length came.link.row) }
    ensures { u.new ≡ received came.entry.link.row (map is_one came.entry.bits.now) }
{
    plain.copy_from_slice(came.bits);
    Scrambler::load().scramble(plain);
    take_x(came.link, plain, u);
}
