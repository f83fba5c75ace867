// The clocks of a block one by one (M.2092-1, Annex 2, 1.2.4; document 01, "From datagram to block"): what both encoders put out and the
// pattern passes on, and the ending.
#![tactic(auto)]

mod clock;
mod ending;
mod inputs;

ghost use Rattle.std.specs.Prelude.{map};
ghost use Rattle.lists.specs.Over.{Room};
ghost use Rattle.lists.specs.Working.Laying.{Lays};
ghost use Rattle.bits.specs.Bits.{byte};
ghost use Rattle.links.specs.Working.Clocks.{clocks_of};
ghost use Rattle.turbo.specs.Coded.{coded_from};

pub use clock::{Registers, lay};
use ending::end;
pub use inputs::Inputs;
use links::Flags;

// Lays the clocks of some inputs, where the pattern begins, and the ending; answers the place behind.
pub fn lay_rest(
    rest: Inputs,
    flags: Flags,
    registers: Registers,
    at: usize,
    out: &mut [u8],
) -> usize
    requires { Room at (map byte (coded_from (clocks_of flags) flags.tail 0 registers.a registers.b rest.u.now rest.v.now)) out.old }
    ensures { Lays at (map byte (coded_from (clocks_of flags) flags.tail 0 registers.a registers.b rest.entry.u.now rest.entry.v.now)) out.old out.new result }
{
    let clocks = flags.clocks();
    let mut to = at;
    let mut registers = registers;
    let mut clock = 0;
    for (&u, &v) in rest.u.iter().zip(rest.v) {
        to = lay(clocks[clock], registers.six(u, v), to, out);
        registers = registers.next(u, v);
        clock = flags.next_clock(clock);
    }
    end(flags, registers, to, out)
}
