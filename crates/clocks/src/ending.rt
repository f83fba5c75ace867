// The ending (M.2092-1, Annex 2, 1.2.4.4; document 01, "From datagram to block"): three clocks put out the first encoder only, three
// more the second, each fed what its register feeds back.
ghost use Rattle.std.specs.Prelude.{◌≡◌, map};
ghost use Rattle.lists.specs.Over.{Room};
ghost use Rattle.lists.specs.Working.Laying.{Lays};
ghost use Rattle.bits.specs.Bits.{byte};
ghost use Rattle.turbo.specs.Encoder.{feedback, next};
ghost use Rattle.turbo.specs.Coded.{alone, ending_of, ending};

use crate::clock::{Registers, lay};
use encoder::Register;
use links::Flags;

// The six of a clock of the ending: the other encoder stands at zero. The definition is told by the same Bool which of the two it is.
fn alone(second: bool, register: Register) -> [u8; 6]
    ensures { result ≡ map byte (alone second register) }
{
    let start = Register::start();
    let fed = register.feedback();
    if second {
        let registers = Registers {
            a: start,
            b: register,
        };
        return registers.six(false, fed);
    }
    let registers = Registers {
        a: register,
        b: start,
    };
    registers.six(fed, false)
}

// The register after a clock of the ending.
fn wound(register: Register) -> Register
    ensures { result ≡ next register (feedback register) }
{
    Register::last(register.one(register.feedback()))
}

// Lays the ending of one encoder, one clock to each six flags. Which of the two it is comes as a Bool, as in the definition `ending_of`: a closure
// for the six would say no more.
fn end_one(
    clocks: [[u8; 6]; 3],
    second: bool,
    register: Register,
    at: usize,
    out: &mut [u8],
) -> usize
    requires { Room at (map byte (ending_of second clocks register)) out.old }
    ensures { Lays at (map byte (ending_of second clocks register)) out.old out.new result }
{
    let mut to = at;
    let mut r = register;
    for &flags in &clocks {
        to = lay(flags, alone(second, r), to, out);
        r = wound(r);
    }
    to
}

// Lays the ending of both.
pub fn end(flags: Flags, registers: Registers, at: usize, out: &mut [u8]) -> usize
    requires { Room at (map byte (ending flags.tail registers.a registers.b)) out.old }
    ensures { Lays at (map byte (ending flags.tail registers.a registers.b)) out.old out.new result }
{
    let [first, second, third, fourth, fifth, sixth] = flags.tail;
    let to = end_one([first, second, third], false, registers.a, at, out);
    end_one([fourth, fifth, sixth], true, registers.b, to, out)
}
