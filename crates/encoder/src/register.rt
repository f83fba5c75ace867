// The register of one encoder: a number below 8 whose bits are a(t-1), a(t-2), a(t-3), the first the lowest. Contracts see the three bits.
ghost use Rattle.std.specs.Prelude.{◌≡◌, [], ◌∷◌, ◌<◌};
ghost use Rattle.bits.specs.Row.{high_first};
ghost use Rattle.turbo.specs.Encoder.{start, feedback};
ghost use Rattle.encoder.specs.Working.Fed.{fed_on, Last};

use std::marker::Model;

#[derive(Clone, Copy)]
pub struct Register {
    bits: u32,
}

impl Model for Register {
    ghost use Rattle.turbo.specs.Encoder.{Register};
    ghost use Rattle.encoder.specs.Working.Number.{register_of, number_of, number_of-register_of};
    ghost use Rattle.std.proofs.Common.{◌<◌, ap};

    ghost Value = { Register };

    ghost view = { λ r. register_of r.bits };

    ghost invariant = { λ r. r.bits < 8 };

    ghost inverse = { λ r. record { bits = number_of r } };

    ghost inverse_ok = { λ r below. ap (λ n. record { bits = n }) (number_of-register_of r.bits below) };
}

impl Register {
    // All zero, as every block begins.
    pub fn start() -> Register
        ensures { result ≡ start }
    {
        Register { bits: 0 }
    }

    // What the ending feeds: a(t-2) + a(t-3).
    pub fn feedback(self) -> bool
        ensures { result ≡ feedback self }
    {
        ((self.bits >> 1) ^ (self.bits >> 2)) & 1 == 1
    }

    // The register and the a of one clock, which input u makes.
    pub fn one(self, u: bool) -> u32
        ensures { result ≡ fed_on self (u ∷ []) }
    {
        (self.bits << 1) | u32::from(u ^ self.feedback())
    }

    // The register and the a of 24 clocks; of the inputs the first is the highest. Each a adds those of two and of three clocks before,
    // and so those of four and of six before, of 8 and 12, of 16; of 24 there is none.
    pub fn many(self, inputs: u32) -> u32
        requires { inputs < 16777216 }
        ensures { result ≡ fed_on self (high_first 24 inputs) }
    {
        let old = self.bits;
        let x = inputs ^ (((old << 22) ^ (old << 21)) & 0xffffff);
        let y = x ^ (x >> 2) ^ (x >> 3);
        let z = y ^ (y >> 4) ^ (y >> 6);
        let w = z ^ (z >> 8) ^ (z >> 12);
        (old << 24) | (w ^ (w >> 16))
    }

    // The register after the clocks that made a number.
    pub fn last(fed: u32) -> Register
        ensures { Last fed result }
    {
        Register { bits: fed & 7 }
    }
}
