// From the bytes that came to the bytes that are printed (document 01, "The link word printer").
#![tactic(auto)]

ghost use Rattle.std.specs.Prelude.{◌≡◌, map, ◌+◌, ◌<◌, length};
ghost use Rattle.words.specs.Calls.{read_word, found, refused};
ghost use Rattle.words.specs.Working.Answer.{word_answer};
ghost use Rattle.printer_text.specs.Line.{bit_of, line_of};
ghost use Rattle.printer_text.specs.Lines.{padded, lines_of, text_of};

use answers::Refusal;
use words::Found;

// The printed bytes stand at the start, and zeros behind them. An array with a count: there is no heap, and the claim `Printed` and the
// definition `padded` speak of these two. The lines are laid by hand, since no contract says what `write!` writes.
#[derive(Clone, Copy)]
pub struct Text {
    pub bytes: [u8; 32],
    pub count: usize,
}

// How many bytes stand before the first newline, or all of them.
pub fn line_end(input: &[u8]) -> usize
    ensures { result ≡ length (line_of input.now) }
{
    input.iter().take_while(|&&byte| byte != b'\n').count()
}

// The bit that a character stands for; 2, which is no bit and is refused by the reader, for any other than 0 and 1, as the definition has it.
#[tactic(auto, unfolding(crate::specs::Line::bit_of))]
fn bit_of(character: u8) -> u8
    ensures { result ≡ bit_of character }
{
    match character {
        b'0' => 0,
        b'1' => 1,
        _ => 2,
    }
}

// Reads the characters of a line as a link word. A line of another length than 32 is refused as it stands.
fn read_characters(line: &[u8]) -> Result<Found, Refusal>
    ensures { word_answer result ≡ read_word (map bit_of line.now) }
{
    let Ok(characters) = <[u8; 32]>::try_from(line) else {
        return words::read(line);
    };
    words::read(&characters.map(bit_of))
}

// A decimal digit as a character.
fn digit(n: u32) -> u8
    requires { n < 10 }
    ensures { result ≡ 48 + n }
{
    b'0' + n as u8
}

// The three lines of a refusal.
fn refusal_lines(status: u32) -> Text
    requires { (0 < status) × (status < 10) }
    ensures { result ≡ padded (lines_of (refused status)) }
{
    let mut bytes = *b"status=0\nlink=none\nwrong=none\n\0\0";
    bytes[7] = digit(status);
    Text { bytes, count: 30 }
}

// The three lines of an answer.
fn answer_lines(number: u32, wrong: u32) -> Text
    requires { (number < 100) × (wrong < 10) }
    ensures { result ≡ padded (lines_of (found number wrong)) }
{
    if number < 10 {
        let mut short = *b"status=0\nlink=0\nwrong=0\n\0\0\0\0\0\0\0\0";
        short[14] = digit(number);
        short[22] = digit(wrong);
        return Text {
            bytes: short,
            count: 24,
        };
    }
    let mut long = *b"status=0\nlink=00\nwrong=0\n\0\0\0\0\0\0\0";
    long[14] = digit(number / 10);
    long[15] = digit(number % 10);
    long[23] = digit(wrong);
    Text {
        bytes: long,
        count: 25,
    }
}

// What is printed for the bytes that came.
pub fn text_of(input: &[u8]) -> Text
    ensures { result ≡ text_of input.now }
{
    match read_characters(&input[..line_end(input)]) {
        Ok(found) => answer_lines(found.number, found.wrong),
        Err(refusal) => refusal_lines(refusal.into()),
    }
}
