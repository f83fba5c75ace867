// The scrambler (M.2092-1, Annex 2, 1.2.6): a register of fifteen cells, kept as a number below 2^15 whose highest digit is cell 1.
#![tactic(auto)]

ghost use Rattle.std.specs.Prelude.{◌≡◌, ◌^◌, ◌<◌, length};
ghost use Rattle.scrambler.specs.Scrambler.{loading_word};
ghost use Rattle.scrambler.specs.Working.Scrambles.{Scrambles};

#[derive(Drop)]
pub struct Scrambler {
    pub register: u16,
    ghost cells: { register < 2 ^ 15 },
}

impl Scrambler {
    // One with the loading word, cell 1 first.
    pub fn load() -> Scrambler
        ensures { result.register ≡ loading_word }
    {
        Scrambler {
            register: 0b100101010000000,
        }
    }

    // Adds the sequence to the bytes, and runs the register on.
    pub fn scramble(&mut self, out: &mut [u8])
        ensures { Scrambles self.old.register (length out.old) out.old out.new self.new.register }
    {
        // groups of eight bytes, cut by place, since the library says nothing of a slice after chunks_exact_mut; and the rest clock by clock
        let whole = out.len() / 8 * 8;
        for at in (0..whole).step_by(8) {
            self.scramble_eight(&mut out[at..at + 8]);
        }
        for byte in &mut out[whole..] {
            let bit = ((self.register >> 1) ^ self.register) % 2;
            *byte ^= bit as u8;
            self.register = (self.register >> 1) + (bit << 14);
        }
    }

    // Eight clocks at once: what cells 14 and 15 will hold is in the cells before them already.
    fn scramble_eight(&mut self, group: &mut [u8])
        requires { length group.old ≡ 8 }
        ensures { Scrambles self.old.register 8 group.old group.new self.new.register }
    {
        // cell 14 plus cell 15, the lowest digit now and the digits above it at the clocks to come
        let mut sums = (self.register >> 1) ^ self.register;
        // they are fed into cell 1 one after another, and the cells move on
        self.register = (self.register >> 8) + ((sums % 256) << 7);
        for byte in group {
            *byte ^= (sums % 2) as u8;
            sums >>= 1;
        }
    }
}
