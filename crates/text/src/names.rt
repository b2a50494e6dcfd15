//! Words compared with names.
ghost use Rattle.std.specs.Prelude.{◌≡◌, Decides};
ghost use Rattle.text.specs.Names.{same as same_of};

/// Whether a word is a name.
#[tactic(auto, unfolding(crate::specs::Names::same))]
pub fn same(word: &[u8], name: &[u8]) -> bool
    ensures value { result ≡ same_of word.now name.now }
    ensures decides { Decides result (word.now ≡ name.now) }
{
    word == name
}
