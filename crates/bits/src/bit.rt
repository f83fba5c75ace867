// A cell of a row of bits: a byte, 0 or 1, in the rows that C lends, and a bool in the rows within the library.
ghost use Rattle.std.specs.Prelude.{◌≡◌, Bool};

pub trait Bit: Copy {
    // the bit that a cell holds, and the cell that holds a bit
    ghost value: { Self → Bool };

    ghost holding: { Bool → Self };

    fn is_one(self) -> bool
        ensures { result ≡ value self };

    fn from_bit(bit: bool) -> Self
        ensures { result ≡ holding bit };
}

impl Bit for bool {
    ghost value = { λ bit. bit };

    ghost holding = { λ bit. bit };

    fn is_one(self) -> bool {
        self
    }

    fn from_bit(bit: bool) -> bool {
        bit
    }
}

impl Bit for u8 {
    ghost use Rattle.bits.specs.Bits.{is_one, byte};

    ghost value = { is_one };

    ghost holding = { byte };

    fn is_one(self) -> bool {
        self == 1
    }

    fn from_bit(bit: bool) -> u8 {
        u8::from(bit)
    }
}
