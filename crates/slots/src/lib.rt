// Slot bursts (M.2092-1, Annex 3, Table 23; document 01, "Slot bursts"): training, link word and block.
#![tactic(auto)]

mod found_head;
mod head;
mod reader;
mod training;
mod writer;

use answers::Refusal;
pub use found_head::FoundHead;
pub use reader::read;
pub use writer::write;

// A slot burst that was read: its head, and the datagram of its block.
#[derive(Clone, Copy)]
pub struct Found {
    pub head: FoundHead,
    pub block: blocks::Found,
}

// What C gets of reading a slot burst: what reading its block does, its link, and the wrong bits of the link word and of the training.
#[repr(C)]
#[derive(Clone, Copy)]
pub struct Slot {
    pub status: u32,
    pub count: u32,
    pub wrong: u32,
    pub link: u32,
    pub word_wrong: u32,
    pub training_wrong: u32,
}

impl From<Result<Found, Refusal>> for Slot {
    ghost use Rattle.std.specs.Prelude.{◌≡◌};
    ghost use Rattle.slots.specs.Working.Answer.{slot_answer};

    ghost from_gives = { λ outcome answer. answer ≡ slot_answer outcome };

    fn from(outcome: Result<Found, Refusal>) -> Slot {
        match outcome {
            Ok(found) => Slot {
                status: 0,
                count: found.block.count,
                wrong: found.block.wrong,
                link: found.head.word.number,
                word_wrong: found.head.word.wrong,
                training_wrong: found.head.training_wrong,
            },
            Err(refusal) => Slot {
                status: refusal.into(),
                count: 0,
                wrong: 0,
                link: 0,
                word_wrong: 0,
                training_wrong: 0,
            },
        }
    }
}
