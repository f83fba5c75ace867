// Laws of lists: definitions stand in specs/, laws in proofs/. The only code is the scratch that every crate clears alike.
#![tactic(auto)]

ghost use Rattle.std.specs.Prelude.{◌≡◌};
ghost use Rattle.lists.specs.Working.Cleared.{cleared};

// An array with the same in every place. There is no heap; where thousands of zeros would stand in a goal, this stands for them.
pub fn cleared<T: Copy, const N: usize>(blank: T) -> [T; N]
    ensures { result ≡ cleared blank N }
{
    [blank; N]
}
