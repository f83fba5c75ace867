// One encoder (M.2092-1, Annex 2, 1.2.4.2; document 01, "From datagram to block"). Every clock shifts its a in at the low end: in the number
// of a register and the clocks behind it, be it one or 24, a clock finds the three bits that it adds one, two and three places above its own.
#![tactic(auto)]

mod inputs;
mod register;

ghost use Rattle.turbo.specs.Encoder.{y0, y1};
ghost use Rattle.encoder.specs.Working.Fed.{Taps};

pub use inputs::packed;
pub use register::Register;

// Y0 = a + a(t-1) + a(t-3) of each clock, in the clock's place.
pub fn y0(fed: u32) -> u32
    ensures { Taps y0 fed result }
{
    fed ^ (fed >> 1) ^ (fed >> 3)
}

// Y1 = a + a(t-1) + a(t-2) + a(t-3) of each clock, in the clock's place. One function with the taps as a parameter would need a loop over them.
pub fn y1(fed: u32) -> u32
    ensures { Taps y1 fed result }
{
    fed ^ (fed >> 1) ^ (fed >> 2) ^ (fed >> 3)
}
