// Link words (M.2092-1, Annex 2, 1.2.3.4): a number 0 to 63 as a word of 32 bits, and back.
#![tactic(auto)]

ghost use Rattle.std.specs.Prelude.{◌≡◌, ◌<◌, length};
ghost use Rattle.answers.specs.Outcome.{Wrote};
ghost use Rattle.answers.specs.Working.Refusals.{written};
ghost use Rattle.words.specs.Word.{word_of};
ghost use Rattle.words.specs.Calls.{write_word, read_word, first_near};
ghost use Rattle.words.specs.Working.Answer.{nearest, word_answer};

use answers::Refusal;

// A number that was read, and in how many places its word differs from what came.
#[derive(Clone, Copy)]
pub struct Found {
    pub number: u32,
    pub wrong: u32,
}

// What C gets of reading a link word.
#[repr(C)]
#[derive(Clone, Copy)]
pub struct Word {
    pub status: u32,
    pub number: u32,
    pub wrong: u32,
}

impl From<Result<Found, Refusal>> for Word {
    ghost use Rattle.std.specs.Prelude.{◌≡◌};
    ghost use Rattle.words.specs.Working.Answer.{word_answer};

    ghost from_gives = { λ outcome answer. answer ≡ word_answer outcome };

    fn from(outcome: Result<Found, Refusal>) -> Word {
        match outcome {
            Ok(found) => Word {
                status: 0,
                number: found.number,
                wrong: found.wrong,
            },
            Err(refusal) => Word {
                status: refusal.into(),
                number: 0,
                wrong: 0,
            },
        }
    }
}

// Table 2, the generator, row D0 first.
const GENERATOR: [u32; 6] = [
    0b10_00_00_10_11_10_10_01_11_10_10_01_10_01_01_10,
    0b01_00_00_01_11_01_01_01_11_01_01_01_01_01_01_01,
    0b00_10_00_11_10_11_00_11_00_11_00_11_00_11_00_11,
    0b00_01_00_11_00_00_11_11_10_00_11_11_00_00_11_11,
    0b00_00_10_00_01_11_11_11_00_00_00_00_11_11_11_11,
    0b00_00_01_00_00_00_00_00_01_11_11_11_11_11_11_11,
];

// The scrambling word, under Table 2.
const SCRAMBLING: u32 = 0b11000010111000101000111001001111;

// The code word of a number: the rows of its set bits and the scrambling word, added bit by bit. D0 is the highest bit.
#[tactic(auto, using(crate::proofs::Rows::row_set, crate::proofs::Rows::row_clear), unfolding(crate::specs::Word::with_rows))]
pub fn word_of(number: u32) -> u32
    requires { number < 64 }
    ensures { result ≡ word_of number }
{
    let mut word = SCRAMBLING;
    let mut rest: &[u32] = &GENERATOR;
    while let Some((row, behind)) = rest.split_first() {
        if (number >> behind.len()) % 2 == 1 {
            word ^= row;
        }
        rest = behind;
    }
    word
}

// Lays the word of a number at the buffer's start, one bit to a byte.
pub fn write(number: u32, out: &mut [u8]) -> Result<u32, Refusal>
    ensures { Wrote (write_word number (length out.old)) out.old out.new (written result) }
{
    if number > 63 {
        return Err(Refusal::NotOffered);
    }
    if out.len() < 32 {
        return Err(Refusal::NoRoom);
    }
    bits::lay_bits(word_of(number), &mut out[..32]);
    Ok(32)
}

// The first number whose word is within seven places of what came. The loop goes over numbers, and what it finds is one of them.
#[tactic(auto, using(crate::proofs::Calls::near_here, crate::proofs::Calls::near_later, crate::proofs::Calls::near_none))]
fn nearest(came: u32) -> Option<Found>
    ensures { nearest result ≡ first_near came 0 64 }
{
    for number in 0..64 {
        let wrong = bits::distance(word_of(number), came);
        if wrong <= 7 {
            return Some(Found { number, wrong });
        }
    }
    None
}

// Reads 32 bits, one to a byte, as a link word. The bytes are tested before their number is known, since the compiler would keep 32 of them
// on the stack, and the header says how much a call takes.
#[tactic(auto, unfolding(crate::specs::Calls::read_word))]
pub fn read(row: &[u8]) -> Result<Found, Refusal>
    ensures { word_answer result ≡ read_word row.now }
{
    let all = bits::all_bits(row);
    if row.len() != 32 {
        return Err(Refusal::WrongLength);
    }
    if !all {
        return Err(Refusal::NoBit);
    }
    nearest(bits::number_of(row)).ok_or(Refusal::NoWord)
}
