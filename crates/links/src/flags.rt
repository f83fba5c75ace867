// What a clock passes on of X Y0 Y1 X' Y'0 Y'1: the patterns (M.2092-1, Table 5) and tails (Table 6) of the offered links. A
// flag 1 passes a bit on, 0 deletes it, 2 sends it twice.
ghost use Rattle.std.specs.Prelude.{◌≡◌, ◌<◌, ◌≤◌, length, take};
ghost use Rattle.links.specs.Patterns.{pattern_of, tail_of};
ghost use Rattle.links.specs.Working.Padded.{padded};
ghost use Rattle.links.specs.Working.Twice.{AllAtMostTwice};

// What a link's clocks pass on: the flags of its pattern's clocks, which begin again after `period` of them, and those of its tail's.
// They are arrays and passed by value (document 01, "Code places and language forms").
#[derive(Clone, Copy)]
pub struct Flags {
    pub pattern: [[u8; 6]; 10],
    pub period: usize,
    pub tail: [[u8; 6]; 6],
    ghost begins: { 0 < period },
    ghost few: { period ≤ 10 },
    ghost twice: { AllAtMostTwice (take period pattern) },
}

impl Flags {
    ghost use Rattle.std.specs.Prelude.{◌≡◌, ◌+◌, ◌%◌, ◌<◌};
    ghost use Rattle.links.specs.Working.Clocks.{clocks_of};

    // The flags of the pattern's clocks.
    pub fn clocks(&self) -> &[[u8; 6]]
        ensures { result.now ≡ clocks_of self.now }
    {
        &self.pattern[..self.period]
    }

    // The pattern's clock behind one: it begins again after its last.
    pub fn next_clock(self, clock: usize) -> usize
        requires { clock < self.period }
        ensures { result ≡ (clock + 1) % self.period }
    {
        if clock + 1 < self.period {
            clock + 1
        } else {
            0
        }
    }
}

const PATTERN_2: [[u8; 6]; 10] = [
    [1, 1, 1, 0, 0, 1],
    [1, 1, 0, 0, 1, 1],
    [0, 0, 0, 0, 0, 0],
    [0, 0, 0, 0, 0, 0],
    [0, 0, 0, 0, 0, 0],
    [0, 0, 0, 0, 0, 0],
    [0, 0, 0, 0, 0, 0],
    [0, 0, 0, 0, 0, 0],
    [0, 0, 0, 0, 0, 0],
    [0, 0, 0, 0, 0, 0],
];

const PATTERN_4: [[u8; 6]; 10] = [
    [1, 1, 0, 0, 1, 0],
    [0, 0, 0, 0, 0, 0],
    [0, 0, 0, 0, 0, 0],
    [0, 0, 0, 0, 0, 0],
    [0, 0, 0, 0, 0, 0],
    [0, 0, 0, 0, 0, 0],
    [0, 0, 0, 0, 0, 0],
    [0, 0, 0, 0, 0, 0],
    [0, 0, 0, 0, 0, 0],
    [0, 0, 0, 0, 0, 0],
];

const PATTERN_6: [[u8; 6]; 10] = [
    [1, 1, 0, 0, 0, 0],
    [1, 0, 0, 0, 1, 0],
    [0, 0, 0, 0, 0, 0],
    [0, 0, 0, 0, 0, 0],
    [0, 0, 0, 0, 0, 0],
    [0, 0, 0, 0, 0, 0],
    [0, 0, 0, 0, 0, 0],
    [0, 0, 0, 0, 0, 0],
    [0, 0, 0, 0, 0, 0],
    [0, 0, 0, 0, 0, 0],
];

const PATTERN_7A: [[u8; 6]; 10] = [
    [1, 0, 0, 0, 0, 0],
    [1, 0, 0, 0, 0, 0],
    [1, 0, 0, 0, 0, 0],
    [1, 1, 0, 0, 1, 0],
    [0, 0, 0, 0, 0, 0],
    [0, 0, 0, 0, 0, 0],
    [0, 0, 0, 0, 0, 0],
    [0, 0, 0, 0, 0, 0],
    [0, 0, 0, 0, 0, 0],
    [0, 0, 0, 0, 0, 0],
];

const PATTERN_7B: [[u8; 6]; 10] = [
    [1, 0, 0, 0, 0, 0],
    [1, 1, 0, 0, 0, 0],
    [1, 0, 0, 0, 0, 0],
    [1, 0, 0, 0, 1, 0],
    [0, 0, 0, 0, 0, 0],
    [0, 0, 0, 0, 0, 0],
    [0, 0, 0, 0, 0, 0],
    [0, 0, 0, 0, 0, 0],
    [0, 0, 0, 0, 0, 0],
    [0, 0, 0, 0, 0, 0],
];

const PATTERN_8: [[u8; 6]; 10] = [
    [1, 0, 1, 0, 0, 0],
    [1, 0, 0, 0, 0, 0],
    [1, 0, 0, 0, 0, 0],
    [1, 0, 0, 0, 0, 0],
    [1, 0, 0, 0, 0, 0],
    [1, 0, 0, 0, 0, 1],
    [0, 0, 0, 0, 0, 0],
    [0, 0, 0, 0, 0, 0],
    [0, 0, 0, 0, 0, 0],
    [0, 0, 0, 0, 0, 0],
];

const TAIL_2A: [[u8; 6]; 6] = [
    [1, 1, 1, 0, 0, 0],
    [1, 1, 1, 0, 0, 0],
    [1, 1, 1, 0, 0, 0],
    [0, 0, 0, 1, 1, 1],
    [0, 0, 0, 1, 1, 1],
    [0, 0, 0, 1, 1, 1],
];

const TAIL_2E: [[u8; 6]; 6] = [
    [2, 1, 1, 0, 0, 0],
    [2, 1, 1, 0, 0, 0],
    [2, 1, 0, 0, 0, 0],
    [0, 0, 0, 2, 1, 1],
    [0, 0, 0, 2, 1, 1],
    [0, 0, 0, 2, 0, 0],
];

const TAIL_4A: [[u8; 6]; 6] = [
    [2, 1, 0, 0, 0, 0],
    [2, 1, 0, 0, 0, 0],
    [2, 0, 0, 0, 0, 0],
    [0, 0, 0, 2, 1, 0],
    [0, 0, 0, 2, 1, 0],
    [0, 0, 0, 0, 1, 0],
];

const TAIL_6: [[u8; 6]; 6] = [
    [1, 1, 0, 0, 0, 0],
    [1, 1, 0, 0, 0, 0],
    [1, 1, 0, 0, 0, 0],
    [0, 0, 0, 1, 1, 0],
    [0, 0, 0, 1, 1, 0],
    [0, 0, 0, 1, 1, 0],
];

const TAIL_6A: [[u8; 6]; 6] = [
    [1, 1, 0, 0, 0, 0],
    [1, 1, 0, 0, 0, 0],
    [1, 0, 0, 0, 0, 0],
    [0, 0, 0, 1, 1, 0],
    [0, 0, 0, 1, 1, 0],
    [0, 0, 0, 1, 0, 0],
];

const TAIL_7A: [[u8; 6]; 6] = [
    [1, 1, 0, 0, 0, 0],
    [1, 0, 0, 0, 0, 0],
    [1, 0, 0, 0, 0, 0],
    [0, 0, 0, 1, 1, 0],
    [0, 0, 0, 1, 0, 0],
    [0, 0, 0, 1, 0, 0],
];

const TAIL_7B: [[u8; 6]; 6] = [
    [1, 1, 0, 0, 0, 0],
    [1, 1, 0, 0, 0, 0],
    [1, 1, 0, 0, 0, 0],
    [0, 0, 0, 1, 1, 0],
    [0, 0, 0, 1, 1, 0],
    [0, 0, 0, 1, 1, 0],
];

const TAIL_8: [[u8; 6]; 6] = [
    [1, 0, 1, 0, 0, 0],
    [1, 0, 1, 0, 0, 0],
    [1, 0, 1, 0, 0, 0],
    [0, 0, 0, 1, 0, 1],
    [0, 0, 0, 1, 0, 1],
    [0, 0, 0, 1, 0, 1],
];

const TAIL_8B: [[u8; 6]; 6] = [
    [1, 0, 1, 0, 0, 0],
    [1, 0, 1, 0, 0, 0],
    [1, 0, 0, 0, 0, 0],
    [0, 0, 0, 1, 0, 1],
    [0, 0, 0, 1, 0, 1],
    [0, 0, 0, 1, 0, 0],
];

// The flags of a pattern's clocks, and zeros behind them: an array by value (document 01, "Code places and language forms").
#[tactic(auto, unfolding(crate::specs::Patterns::patterns, crate::specs::Patterns::clocks_in, crate::specs::Working::Padded::padded))]
pub fn pattern(name: u32) -> [[u8; 6]; 10]
    ensures { result ≡ padded 10 (pattern_of name) }
{
    match name {
        0x2 => PATTERN_2,
        0x4 => PATTERN_4,
        0x6 => PATTERN_6,
        0x7a => PATTERN_7A,
        0x7b => PATTERN_7B,
        0x8 => PATTERN_8,
        _ => [[0; 6]; 10],
    }
}

// After how many clocks a pattern begins again.
#[tactic(auto, unfolding(crate::specs::Patterns::patterns, crate::specs::Patterns::clocks_in))]
pub fn clocks(name: u32) -> usize
    ensures { result ≡ length (pattern_of name) }
{
    match name {
        0x2 => 2,
        0x4 => 1,
        0x6 => 2,
        0x7a => 4,
        0x7b => 4,
        0x8 => 6,
        _ => 0,
    }
}

// The flags of a tail's clocks.
#[tactic(auto, unfolding(crate::specs::Patterns::tails, crate::specs::Patterns::clocks_in, crate::specs::Working::Padded::padded))]
pub fn tail(name: u32) -> [[u8; 6]; 6]
    ensures { result ≡ padded 6 (tail_of name) }
{
    match name {
        0x2a => TAIL_2A,
        0x2e => TAIL_2E,
        0x4a => TAIL_4A,
        0x6 => TAIL_6,
        0x6a => TAIL_6A,
        0x7a => TAIL_7A,
        0x7b => TAIL_7B,
        0x8 => TAIL_8,
        0x8b => TAIL_8B,
        _ => [[0; 6]; 6],
    }
}
