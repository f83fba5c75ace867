// The training of a slot burst: 27 symbols, each sent as two equal bits.
ghost use Rattle.std.specs.Prelude.{◌≡◌, map, ◌+◌, ◌≤◌, length};
ghost use Rattle.lists.specs.Over.{over};
ghost use Rattle.bits.specs.Bits.{is_one, byte};
ghost use Rattle.bits.specs.Row.{differ, differences};
ghost use Rattle.slots.specs.Burst.{training};

const SYMBOLS: [u8; 27] = *b"111111001101010000011001010";

// Lays the training's 54 bits at the buffer's start.
#[tactic(auto, using(crate::proofs::Symbols::laying))]
pub fn lay(out: &mut [u8])
    requires { 54 ≤ length out.old }
    ensures { out.new ≡ over 0 (map byte training) out.old }
{
    let bits = &mut out[..54];
    for (i, bit) in bits.iter_mut().enumerate() {
        *bit = u8::from(SYMBOLS[i / 2] == b'1');
    }
}

// In how many of its two bits a symbol that came differs. Where the two are unlike, one of them is wrong; else both are, or none.
fn wrong_in(symbol: bool, first: bool, second: bool) -> u32
    ensures { result ≡ differ symbol first + differ symbol second }
{
    if first != second {
        return 1;
    }
    if first != symbol {
        return 2;
    }
    0
}

// In how many of its 54 bits the training that came differs.
pub fn wrong(came: &[u8]) -> u32
    requires { length came.now ≡ 54 }
    ensures { result ≡ differences training (map is_one came.now) }
{
    let mut count = 0;
    for (pair, symbol) in came.chunks_exact(2).zip(SYMBOLS) {
        count += wrong_in(symbol == b'1', pair[0] == 1, pair[1] == 1);
    }
    count
}
