// The words of a list tested together.
ghost use Rattle.std.specs.Prelude.{◌≡◌, ℕ, ltb};
ghost use Rattle.lists.specs.Lists.{any};
ghost use Rattle.sheet.specs.Page.{max_word};

use crate::PageAnswer;

// Whether a word is above 65,535: the bits of all words are gathered, so that the loop has no branch and
// takes several words at a time.
pub fn any_large(words: &[u32]) -> bool
    ensures { result ≡ any (λ (w : ℕ). ltb max_word w) words.now }
{
    let mut seen = 0u32;
    for &word in words {
        seen |= word;
    }
    PageAnswer::MAX_WORD < seen
}
