// The head of a slot burst: the training and the link word, 86 bits.
ghost use Rattle.std.specs.Prelude.{◌≡◌, map, ◌<◌, ◌≤◌, length};
ghost use Rattle.lists.specs.Over.{over};
ghost use Rattle.bits.specs.Bits.{byte};
ghost use Rattle.slots.specs.Burst.{is_slot_link, head_of};
ghost use Rattle.slots.specs.Head.{read_head};
ghost use Rattle.slots.specs.Working.Answer.{head_answer};

use crate::{FoundHead, training};
use answers::Refusal;
use links::Link;

// What the definition `read_head` says of a head, refusals included: its link, the wrong bits of its link word and of its training, and how long
// the rest is to be.
#[repr(C)]
#[derive(Clone, Copy)]
pub struct Head {
    pub status: u32,
    pub link: u32,
    pub word_wrong: u32,
    pub training_wrong: u32,
    pub rest: u32,
}

// Whether a link has slot bursts.
#[tactic(auto, unfolding(crate::specs::Burst::is_slot_link))]
pub fn is_slot_link(link: u32) -> bool
    ensures { result ≡ is_slot_link link }
{
    matches!(link, 5..=7)
}

// Lays the head of a link's slot bursts at the buffer's start.
pub fn lay(link: u32, out: &mut [u8])
    requires { (link < 64) × (86 ≤ length out.old) }
    ensures { out.new ≡ over 0 (map byte (head_of link)) out.old }
{
    training::lay(out);
    bits::lay_bits(words::word_of(link), &mut out[54..86]);
}

// Reads the head of a slot burst. What stands behind it is not looked at.
#[tactic(auto, using(crate::proofs::Reading::head_reading), unfolding(crate::specs::Head::read_head, crate::specs::Head::named_head))]
pub fn read(burst: &[u8]) -> Result<FoundHead, Refusal>
    ensures { head_answer result ≡ read_head burst.now }
{
    if burst.len() < 86 {
        return Err(Refusal::WrongLength);
    }
    if !bits::all_bits(&burst[..86]) {
        return Err(Refusal::NoBit);
    }
    let training_wrong = training::wrong(&burst[..54]);
    if training_wrong > 8 {
        return Err(Refusal::NoTraining);
    }
    let word = words::read(&burst[54..86])?;
    if !is_slot_link(word.number) {
        return Err(Refusal::NotOffered);
    }
    let link = Link::find(word.number).ok_or(Refusal::NotOffered)?;
    Ok(FoundHead {
        word,
        training_wrong,
        rest: link.size as u32,
    })
}
