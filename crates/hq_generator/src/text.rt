//! Texts of fixed words and of numbers.
ghost use Rattle.std.specs.Prelude.{◌≡◌, ◌++◌, true, false, map, IfOk, OnOk};
ghost use Rattle.std.specs.Fmt.{decimal};
ghost use Rattle.std.specs.List.{list_all};
ghost use Rattle.hq_base.specs.Text.{has_zero};
ghost use Rattle.hq_generator.specs.Words.{is_clean, word_text};

use hq_base::{List, Memory, Txt};
use itoa::Buffer;
use std::alloc::Global;

/// The text of a word without a zero byte.
pub fn text(alloc: Global, word: &str) -> Result<Txt, Memory>
    requires { has_zero word.now ≡ false }
    ensures { IfOk result (λ text. text ≡ word.now) }
{
    let mut text = Txt::new(alloc);
    text.push_str(word)?;
    Ok(text)
}

/// The texts of words without a zero byte.
pub fn texts(alloc: Global, words: &[&str]) -> Result<List<Txt>, Memory>
    requires { list_all is_clean words.now ≡ true }
    ensures { IfOk result (λ texts. texts ≡ map word_text words.now) }
{
    let mut texts = List::new(alloc);
    for word in words {
        texts.push(text(alloc, word)?)?;
    }
    Ok(texts)
}

/// Adds the digits of a number.
#[tactic(auto, using(crate::proofs::Digits::digits_no_zero))]
pub fn push_number(text: &mut Txt, number: u32) -> Result<(), Memory>
    ensures { OnOk result (text.new ≡ text.old ++ decimal number) }
{
    let mut digits = Buffer::new();
    text.push_str(digits.format(number))
}

/// A word, and the digits of a number.
pub fn with_number(alloc: Global, word: &str, number: u32) -> Result<Txt, Memory>
    requires { has_zero word.now ≡ false }
    ensures { IfOk result (λ text. text ≡ word.now ++ decimal number) }
{
    let mut text = text(alloc, word)?;
    push_number(&mut text, number)?;
    Ok(text)
}
