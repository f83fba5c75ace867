// The coded bits of a block (M.2092-1, Annex 2, 1.2.4; document 01, "From datagram to block"): its clocks in groups of 24, and what is
// behind the last group clock by clock.
#![tactic(auto)]

mod group;

ghost use Rattle.std.specs.Prelude.{map};
ghost use Rattle.lists.specs.Over.{Room};
ghost use Rattle.lists.specs.Working.Laying.{Lays};
ghost use Rattle.bits.specs.Bits.{byte};
ghost use Rattle.links.specs.Working.Clocks.{clocks_of};
ghost use Rattle.turbo.specs.Encoder.{start};
ghost use Rattle.turbo.specs.Coded.{coded_from};

use clocks::{Inputs, Registers, lay_rest};
use group::{lay_digits, lay_places, put_group, whole};
use links::Flags;
use lists::cleared;

// Lays the coded bits of a block, one to a byte; answers how many they are.
pub fn encode(inputs: Inputs, flags: Flags, out: &mut [u8]) -> usize
    requires { Room 0 (map byte (coded_from (clocks_of flags) flags.tail 0 start start inputs.u.now inputs.v.now)) out.old }
    ensures { Lays 0 (map byte (coded_from (clocks_of flags) flags.tail 0 start start inputs.entry.u.now inputs.entry.v.now)) out.old out.new result }
{
    let in_groups = whole(flags.period);
    let mut room = cleared::<u8, 288>(0);
    let count = lay_places(flags, &mut room);
    let places = &room[..count];
    let mut rest = inputs;
    let mut registers = Registers::start();
    let mut at = 0;
    while in_groups && rest.u.len() >= 24 {
        let (group, behind) = rest.split_at(24);
        let put = put_group(registers, group);
        at = lay_digits(put.bits, places, at, out);
        registers = put.registers;
        rest = behind;
    }
    lay_rest(rest, flags, registers, at, out)
}
