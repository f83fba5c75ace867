// A head that was read: its link word, in how many bits its training differs, and how long the rest is to be, for whoever reads the head first.
// That is N of its link, so what C gets of a burst, which has no word of the rest, leaves one answer.
ghost use Rattle.std.specs.Prelude.{◌≡◌};
ghost use Rattle.links.specs.Rows.{row_of};
ghost use Rattle.links.specs.Sizes.{image_length};

use words::Found;

#[derive(Clone, Copy)]
pub struct FoundHead {
    pub word: Found,
    pub training_wrong: u32,
    pub rest: u32,
    ghost sized: { rest ≡ image_length (row_of word.number) },
}
