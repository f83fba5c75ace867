// The exported calls, tied to the claims: each function calls the library's of that name and ensures the very relation that the theorems of
// claims speak of, so a call with a weaker contract is refused here; the exports of decklewren_c have the same contracts. A datagram that is lent is one of bytes, a source is of
// 32 bits, and the array of a state has 1,504 bytes.
#![tactic(auto)]

ghost use Rattle.std.specs.Prelude.{◌≡◌, true, ◌<◌, length};
ghost use Rattle.bits.specs.Datagram.{all_bytes};
ghost use Rattle.parts.specs.State.{longest, state};
ghost use Rattle.parts.specs.Taking.{TookPart};
ghost use Rattle.parts.specs.Asking.{ReadParts};
ghost use Rattle.claims.specs.Calls.{WroteWord, ReadWord, WroteBlock, ReadBlock, WroteSlot, ReadSlot, Stepped, WroteMessage, ZeroFilled, Printed};

use answers::Written;
use blocks::Block;
use message_writer::Laid;
use messages::Step;
use printer_text::Text;
use slots::Slot;
use words::Word;

pub fn write_word(number: u32, out: &mut [u8]) -> Written
    ensures { WroteWord number out.old out.new result }
{
    decklewren::decklewren_write_word(number, out)
}

pub fn read_word(bits: &[u8]) -> Word
    ensures { ReadWord bits.now result }
{
    decklewren::decklewren_read_word(bits)
}

pub fn write_block(link: u32, datagram: &[u8], out: &mut [u8]) -> Written
    ensures wrote { WroteBlock link datagram.now out.old out.new result }
    ensures bytes { all_bytes datagram.now ≡ true }
{
    decklewren::decklewren_write_block(link, datagram, out)
}

pub fn read_block(link: u32, bits: &[u8], out: &mut [u8]) -> Block
    ensures { ReadBlock link bits.now out.old out.new result }
{
    decklewren::decklewren_read_block(link, bits, out)
}

pub fn write_slot(link: u32, datagram: &[u8], out: &mut [u8]) -> Written
    ensures wrote { WroteSlot link datagram.now out.old out.new result }
    ensures bytes { all_bytes datagram.now ≡ true }
{
    decklewren::decklewren_write_slot(link, datagram, out)
}

pub fn read_slot(burst: &[u8], out: &mut [u8]) -> Slot
    ensures { ReadSlot burst.now out.old out.new result }
{
    decklewren::decklewren_read_slot(burst, out)
}

pub fn take_part(count: &mut u32, bits: &mut [u8; 1504], part: &[u8])
    ensures { TookPart part.now (state count.old bits.old) (state count.new bits.new) }
{
    decklewren::decklewren_take_part(count, bits, part);
}

pub fn read_parts(count: &mut u32, bits: &mut [u8; 1504], out: &mut [u8]) -> Slot
    ensures { (ReadParts (state count.old bits.old) (state count.new bits.new) out.old out.new result) × (length bits.old ≡ longest) }
{
    length_of(bits);
    decklewren::decklewren_read_parts(count, bits, out)
}

// An array that is lent as a slice shows its length.
fn length_of(bytes: &[u8]) -> usize {
    bytes.len()
}

pub fn step_message(datagram: &[u8], position: usize) -> Step
    ensures { Stepped datagram.now position result }
{
    decklewren::decklewren_step_message(datagram, position)
}

pub fn write_message(datagram: &mut [u8], start: usize, kind: u8, source: u32, body: &[u8]) -> Laid
    ensures { (WroteMessage start kind source body.now datagram.old datagram.new result) × (source < 4294967296) }
{
    decklewren::decklewren_write_message(datagram, start, kind, source, body)
}

pub fn zero_fill(datagram: &mut [u8], start: usize) -> Laid
    ensures { ZeroFilled start datagram.old datagram.new result }
{
    decklewren::decklewren_zero_fill(datagram, start)
}

// The text that the link word printer's `main` prints.
pub fn text_of(input: &[u8]) -> Text
    ensures { Printed input.now result }
{
    printer_text::text_of(input)
}
