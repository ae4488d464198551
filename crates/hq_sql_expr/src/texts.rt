//! Reading fixed words, names, texts and numbers.
ghost use Rattle.std.specs.Prelude.{◌≡◌, option_map, ◌∷◌, []};
ghost use Rattle.hq_sql_tree.specs.View.{expr_view};
ghost use Rattle.hq_sql_expr.specs.Reading.{Reads, after, strip, unquoted, text_from, quoted_at, name_at, text_at, int_from, literal_at, is_digit, leading_digits, after_digits, number_from, number_at};

use crate::ReadRefusal;
use hq_base::{Txt, TxtRefusal};
use hq_sql_tree::{Expr, Word};
use std::alloc::Global;

/// What follows the word, where it stands first.
#[tactic(auto, unfolding(crate::specs::Reading::after))]
pub fn starts(bytes: &[u8], word: Word) -> Option<&[u8]>
    ensures { option_map (λ r. r.now) result ≡ after word bytes.now }
{
    bytes.strip_prefix(word.bytes())
}

/// What follows the word, which must stand first.
pub fn skip(bytes: &[u8], word: Word) -> Result<&[u8], ReadRefusal>
    ensures { Reads (λ r. r.now) result (after word bytes.now) }
{
    match starts(bytes, word) {
        Some(rest) => Ok(rest),
        None => Err(ReadRefusal::NotSql),
    }
}

fn strip_quote(quote: u8, bytes: &[u8]) -> Option<&[u8]>
    ensures { option_map (λ r. r.now) result ≡ strip (quote ∷ []) bytes.now }
{
    let (first, rest) = bytes.split_first()?;
    if *first == quote { Some(rest) } else { None }
}

// The text up to a quote that stands once.
fn unquoted_of(alloc: Global, quote: u8, bytes: &[u8]) -> Result<(Vec<u8>, &[u8]), ReadRefusal>
    ensures { Reads (λ x. (x.0.items, x.1.now)) result (unquoted quote bytes.now) }
{
    let mut text = Vec::new(alloc);
    let mut rest = bytes;
    loop {
        let Some((b, tail)) = rest.split_first() else {
            return Err(ReadRefusal::NotSql);
        };
        if *b != quote {
            text.push(*b)?;
            rest = tail;
            continue;
        }
        match strip_quote(quote, tail) {
            None => return Ok((text, tail)),
            Some(more) => {
                text.push(quote)?;
                rest = more;
            }
        }
    }
}

#[tactic(auto, unfolding(crate::specs::Reading::text_from, hq_sql_tree::specs::Form::is_text))]
fn txt_of(alloc: Global, bytes: &[u8]) -> Result<Txt, ReadRefusal>
    ensures { Reads (λ text. text) result (text_from bytes.now) }
{
    match Txt::of(alloc, bytes) {
        Ok(text) => Ok(text),
        Err(TxtRefusal::Memory) => Err(ReadRefusal::Memory),
        Err(TxtRefusal::NotUtf8) => Err(ReadRefusal::NotSql),
        Err(TxtRefusal::ZeroByte) => Err(ReadRefusal::NotSql),
    }
}

#[tactic(auto, unfolding(crate::specs::Reading::quoted_at))]
fn quoted_of(alloc: Global, quote: u8, bytes: &[u8]) -> Result<(Txt, &[u8]), ReadRefusal>
    ensures { Reads (λ x. (x.0, x.1.now)) result (quoted_at quote bytes.now) }
{
    let Some(rest) = strip_quote(quote, bytes) else {
        return Err(ReadRefusal::NotSql);
    };
    let (text, rest) = unquoted_of(alloc, quote, rest)?;
    let text = txt_of(alloc, &text)?;
    Ok((text, rest))
}

/// Reads a name in double quotes.
pub fn read_name(alloc: Global, bytes: &[u8]) -> Result<(Txt, &[u8]), ReadRefusal>
    ensures { Reads (λ x. (x.0, x.1.now)) result (name_at bytes.now) }
{
    quoted_of(alloc, b'"', bytes)
}

#[tactic(auto, unfolding(crate::specs::Reading::text_at))]
pub(crate) fn text_of(alloc: Global, bytes: &[u8]) -> Result<(Txt, &[u8]), ReadRefusal>
    ensures { Reads (λ x. (x.0, x.1.now)) result (text_at bytes.now) }
{
    let (text, rest) = quoted_of(alloc, b'\'', bytes)?;
    let rest = skip(rest, Word::AsText)?;
    Ok((text, rest))
}

// The whole number whose shortest decimal these digits are.
fn int_of(alloc: Global, digits: &Txt) -> Result<i64, ReadRefusal>
    ensures { Reads (λ n. n) result (int_from digits.now) }
{
    let Ok(n) = digits.as_str().parse::<i64>() else {
        return Err(ReadRefusal::NotSql);
    };
    let shortest = n.to_string(alloc)?;
    if shortest.as_bytes() != digits.as_bytes() {
        return Err(ReadRefusal::NotSql);
    }
    Ok(n)
}

#[tactic(auto, unfolding(crate::specs::Reading::literal_at))]
pub(crate) fn literal_of(alloc: Global, bytes: &[u8]) -> Result<(Expr, &[u8]), ReadRefusal>
    ensures { Reads (λ x. (expr_view x.0, x.1.now)) result (literal_at bytes.now) }
{
    let (text, rest) = quoted_of(alloc, b'\'', bytes)?;
    if let Some(rest) = starts(rest, Word::AsText) {
        return Ok((Expr::Text(text), rest));
    }
    if let Some(rest) = starts(rest, Word::AsUuid) {
        return Ok((Expr::Uuid(text), rest));
    }
    let rest = skip(rest, Word::AsBigint)?;
    let n = int_of(alloc, &text)?;
    Ok((Expr::Int(n), rest))
}

fn is_digit(b: u8) -> bool
    ensures { result ≡ is_digit b }
{
    b >= b'0' && b <= b'9'
}

// The digits at the front, and what follows them.
fn split_digits(bytes: &[u8]) -> (&[u8], &[u8])
    ensures digits { result.0.now ≡ leading_digits bytes.now }
    ensures rest { result.1.now ≡ after_digits bytes.now }
{
    for (i, b) in bytes.iter().enumerate() {
        if !is_digit(*b) {
            return bytes.split_at(i);
        }
    }
    bytes.split_at(bytes.len())
}

// The number whose shortest decimal these digits are.
fn number_of(alloc: Global, digits: &Txt) -> Result<u64, ReadRefusal>
    ensures { Reads (λ n. n) result (number_from digits.now) }
{
    let Ok(n) = digits.as_str().parse::<u64>() else {
        return Err(ReadRefusal::NotSql);
    };
    let shortest = n.to_string(alloc)?;
    if shortest.as_bytes() != digits.as_bytes() {
        return Err(ReadRefusal::NotSql);
    }
    Ok(n)
}

/// Reads a number of rows, in shortest decimal.
#[tactic(auto, unfolding(crate::specs::Reading::number_at))]
pub fn read_number(alloc: Global, bytes: &[u8]) -> Result<(u64, &[u8]), ReadRefusal>
    ensures { Reads (λ x. (x.0, x.1.now)) result (number_at bytes.now) }
{
    let (digits, rest) = split_digits(bytes);
    let digits = txt_of(alloc, digits)?;
    let n = number_of(alloc, &digits)?;
    Ok((n, rest))
}
