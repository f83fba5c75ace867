// The inputs of 24 clocks as a number, the first the highest, and so that it is known to fit 24 bits.
ghost use Rattle.std.specs.Prelude.{◌≡◌, ◌<◌, length};
ghost use Rattle.bits.specs.Row.{number};

pub fn packed(inputs: &[bool]) -> u32
    requires { length inputs.now ≡ 24 }
    ensures { (result ≡ number inputs.now) × (result < 16777216) }
{
    bits::number_of(inputs)
}
