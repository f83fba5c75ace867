// What C calls (include/decklewren.h): the exports of the static library, each a call of the library's function of its name with the same
// clauses again (.ci/weakened compares them).
#![tactic(auto)]

ghost use Rattle.std.specs.Prelude.{◌≡◌, length};
ghost use Rattle.answers.specs.Outcome.{WroteAt, Wrote};
ghost use Rattle.messages.specs.Step.{step_message};
ghost use Rattle.message_writer.specs.Calls.{write_message, zero_fill};
ghost use Rattle.blocks.specs.Calls.{write_block, read_block};
ghost use Rattle.parts.specs.State.{state};
ghost use Rattle.parts.specs.Taking.{TookPart};
ghost use Rattle.parts.specs.Asking.{ReadParts};
ghost use Rattle.slots.specs.Calls.{write_slot, read_slot};
ghost use Rattle.words.specs.Calls.{write_word, read_word};

use answers::Written;
use blocks::Block;
use message_writer::Laid;
use messages::Step;
use slots::Slot;
use words::Word;

#[unsafe(no_mangle)]
pub extern "C" fn decklewren_write_word(number: u32, out: &mut [u8]) -> Written
    ensures { Wrote (write_word number (length out.old)) out.old out.new result }
{
    decklewren::decklewren_write_word(number, out)
}

#[unsafe(no_mangle)]
pub extern "C" fn decklewren_read_word(bits: &[u8]) -> Word
    ensures { result ≡ read_word bits.now }
{
    decklewren::decklewren_read_word(bits)
}

#[unsafe(no_mangle)]
pub extern "C" fn decklewren_step_message(datagram: &[u8], position: usize) -> Step
    ensures { result ≡ step_message datagram.now position }
{
    decklewren::decklewren_step_message(datagram, position)
}

#[unsafe(no_mangle)]
pub extern "C" fn decklewren_write_message(
    datagram: &mut [u8],
    start: usize,
    kind: u8,
    source: u32,
    body: &[u8],
) -> Laid
    ensures { WroteAt start (write_message start kind source body.now (length datagram.old)) datagram.old datagram.new result }
{
    decklewren::decklewren_write_message(datagram, start, kind, source, body)
}

#[unsafe(no_mangle)]
pub extern "C" fn decklewren_zero_fill(datagram: &mut [u8], start: usize) -> Laid
    ensures { WroteAt start (zero_fill start (length datagram.old)) datagram.old datagram.new result }
{
    decklewren::decklewren_zero_fill(datagram, start)
}

#[unsafe(no_mangle)]
pub extern "C" fn decklewren_write_block(link: u32, datagram: &[u8], out: &mut [u8]) -> Written
    ensures { Wrote (write_block link datagram.now (length out.old)) out.old out.new result }
{
    decklewren::decklewren_write_block(link, datagram, out)
}

#[unsafe(no_mangle)]
pub extern "C" fn decklewren_read_block(link: u32, bits: &[u8], out: &mut [u8]) -> Block
    ensures { Wrote (read_block link bits.now (length out.old)) out.old out.new result }
{
    decklewren::decklewren_read_block(link, bits, out)
}

#[unsafe(no_mangle)]
pub extern "C" fn decklewren_write_slot(link: u32, datagram: &[u8], out: &mut [u8]) -> Written
    ensures { Wrote (write_slot link datagram.now (length out.old)) out.old out.new result }
{
    decklewren::decklewren_write_slot(link, datagram, out)
}

#[unsafe(no_mangle)]
pub extern "C" fn decklewren_read_slot(burst: &[u8], out: &mut [u8]) -> Slot
    ensures { Wrote (read_slot burst.now (length out.old)) out.old out.new result }
{
    decklewren::decklewren_read_slot(burst, out)
}

#[unsafe(no_mangle)]
pub extern "C" fn decklewren_take_part(count: &mut u32, bits: &mut [u8; 1504], part: &[u8])
    ensures { TookPart part.now (state count.old bits.old) (state count.new bits.new) }
{
    decklewren::decklewren_take_part(count, bits, part);
}

#[unsafe(no_mangle)]
pub extern "C" fn decklewren_read_parts(
    count: &mut u32,
    bits: &mut [u8; 1504],
    out: &mut [u8],
) -> Slot
    ensures { ReadParts (state count.old bits.old) (state count.new bits.new) out.old out.new result }
{
    decklewren::decklewren_read_parts(count, bits, out)
}
