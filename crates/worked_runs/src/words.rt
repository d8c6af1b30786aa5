//! The words of a run.
ghost use Rattle.std.specs.Prelude.{◌≡◌, [], ◌∷◌, IfOk};
ghost use Rattle.run_words.specs.Words.{words_of};

use mud_base::Memory;
use std::alloc::Global;

/// One word.
pub(crate) fn one_word(alloc: Global, word: &str) -> Result<Vec<String>, Memory>
    ensures { IfOk result (λ words. words_of words.items ≡ word.now ∷ []) }
{
    let mut words = Vec::new(alloc);
    words.push(String::from_str(alloc, word)?)?;
    Ok(words)
}

/// Two words.
pub(crate) fn two_words(alloc: Global, first: &str, second: &str) -> Result<Vec<String>, Memory>
    ensures { IfOk result (λ words. words_of words.items ≡ first.now ∷ second.now ∷ []) }
{
    let mut words = one_word(alloc, first)?;
    words.push(String::from_str(alloc, second)?)?;
    Ok(words)
}

/// Three words.
pub(crate) fn three_words(
    alloc: Global,
    first: &str,
    second: &str,
    third: &str,
) -> Result<Vec<String>, Memory>
    ensures { IfOk result (λ words. words_of words.items ≡ first.now ∷ second.now ∷ third.now ∷ []) }
{
    let mut words = two_words(alloc, first, second)?;
    words.push(String::from_str(alloc, third)?)?;
    Ok(words)
}
