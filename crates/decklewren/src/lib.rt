// The public calls of the crates below under the names that C calls them by, with the answers that C gets.
#![tactic(auto)]

ghost use Rattle.std.specs.Prelude.{◌≡◌, length};
ghost use Rattle.answers.specs.Outcome.{WroteAt, Wrote};
ghost use Rattle.messages.specs.Step.{step_message};
ghost use Rattle.message_writer.specs.Calls.{write_message, zero_fill};
ghost use Rattle.blocks.specs.Calls.{write_block, read_block};
ghost use Rattle.parts.specs.State.{state};
ghost use Rattle.parts.specs.Taking.{TookPart};
ghost use Rattle.parts.specs.Asking.{ReadParts};
ghost use Rattle.slots.specs.Calls.{write_slot, read_slot};
ghost use Rattle.words.specs.Calls.{write_word, read_word};

use answers::Written;
use blocks::Block;
use message_writer::Laid;
use messages::Step;
use slots::Slot;
use words::Word;

pub fn decklewren_write_word(number: u32, out: &mut [u8]) -> Written
    ensures { Wrote (write_word number (length out.old)) out.old out.new result }
{
    words::write(number, out).into()
}

pub fn decklewren_read_word(bits: &[u8]) -> Word
    ensures { result ≡ read_word bits.now }
{
    words::read(bits).into()
}

pub fn decklewren_step_message(datagram: &[u8], position: usize) -> Step
    ensures { result ≡ step_message datagram.now position }
{
    messages::step_message(datagram, position).into()
}

pub fn decklewren_write_message(
    datagram: &mut [u8],
    start: usize,
    kind: u8,
    source: u32,
    body: &[u8],
) -> Laid
    ensures { WroteAt start (write_message start kind source body.now (length datagram.old)) datagram.old datagram.new result }
{
    message_writer::write_message(datagram, start, kind, source, body).into()
}

pub fn decklewren_zero_fill(datagram: &mut [u8], start: usize) -> Laid
    ensures { WroteAt start (zero_fill start (length datagram.old)) datagram.old datagram.new result }
{
    message_writer::zero_fill(datagram, start).into()
}

pub fn decklewren_write_block(link: u32, datagram: &[u8], out: &mut [u8]) -> Written
    ensures { Wrote (write_block link datagram.now (length out.old)) out.old out.new result }
{
    block_writer::write(link, datagram, out).into()
}

pub fn decklewren_read_block(link: u32, bits: &[u8], out: &mut [u8]) -> Block
    ensures { Wrote (read_block link bits.now (length out.old)) out.old out.new result }
{
    block_reader::read(link, bits, out).into()
}

pub fn decklewren_write_slot(link: u32, datagram: &[u8], out: &mut [u8]) -> Written
    ensures { Wrote (write_slot link datagram.now (length out.old)) out.old out.new result }
{
    slots::write(link, datagram, out).into()
}

pub fn decklewren_read_slot(burst: &[u8], out: &mut [u8]) -> Slot
    ensures { Wrote (read_slot burst.now (length out.old)) out.old out.new result }
{
    slots::read(burst, out).into()
}

pub fn decklewren_take_part(count: &mut u32, bits: &mut [u8; 1504], part: &[u8])
    ensures { TookPart part.now (state count.old bits.old) (state count.new bits.new) }
{
    parts::take(count, bits, part);
}

pub fn decklewren_read_parts(count: &mut u32, bits: &mut [u8; 1504], out: &mut [u8]) -> Slot
    ensures { ReadParts (state count.old bits.old) (state count.new bits.new) out.old out.new result }
{
    parts::read(count, bits, out).into()
}
