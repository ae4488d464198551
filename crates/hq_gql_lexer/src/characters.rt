//! The characters between a string's quotes.
ghost use Rattle.std.specs.Prelude.{◌≡◌, ◌+◌, ◌<◌, ◌≤◌, ◌^◌, ◌++◌, length, IfOk, OnOk};
ghost use Rattle.hq_base.specs.Due.{Gives};
ghost use Rattle.hq_gql_lexer.specs.Pieces.{piece_text};
ghost use Rattle.hq_gql_lexer.specs.Steps.{steps};
ghost use Rattle.hq_gql_lexer.specs.Strings.{source_at, character_at, characters};
ghost use Rattle.hq_gql_lexer.specs.declared.characters.StringKind.TheVariants.{Plain, Block};

use crate::LexRefusal;
use crate::byte::{is_source, utf8_len};
use crate::escape::escape;
use hq_base::Memory;
use std::alloc::Global;

// Which quotes the string has.
#[derive(Clone, Copy)]
pub(crate) enum StringKind {
    // `".."`
    Plain,
    // `"""..."""`
    Block,
}

// What one character of a string stands for.
#[derive(Clone, Copy)]
enum Piece {
    Byte(u8),
    Char(char),
    Quotes,
}

fn source_piece(at: usize, bytes: &[u8]) -> Result<(Piece, usize), LexRefusal>
    ensures exact { Gives (λ x. (piece_text x.0, x.1)) LexRefusal.Memory (source_at at bytes.now) result }
    ensures within { IfOk result (λ x. (0 < x.1) × (x.1 ≤ length bytes.now)) }
{
    match bytes.first() {
        Some(b) if is_source(*b) => Ok((Piece::Byte(*b), 1)),
        _ => Err(LexRefusal::BadByte { at: at as u64 }),
    }
}

#[tactic(auto, unfolding(crate::specs::Strings::character_at))]
fn plain_piece(at: usize, bytes: &[u8]) -> Result<(Piece, usize), LexRefusal>
    ensures exact { Gives (λ x. (piece_text x.0, x.1)) LexRefusal.Memory (character_at Plain at bytes.now) result }
    ensures within { IfOk result (λ x. (0 < x.1) × (x.1 ≤ length bytes.now)) }
{
    match bytes {
        [b'\\', ..] => match escape(bytes) {
            Some((c, len)) => Ok((Piece::Char(c), len)),
            None => Err(LexRefusal::BadEscape { at: at as u64 }),
        },
        _ => source_piece(at, bytes),
    }
}

#[tactic(auto, unfolding(crate::specs::Strings::character_at))]
fn block_piece(at: usize, bytes: &[u8]) -> Result<(Piece, usize), LexRefusal>
    ensures exact { Gives (λ x. (piece_text x.0, x.1)) LexRefusal.Memory (character_at Block at bytes.now) result }
    ensures within { IfOk result (λ x. (0 < x.1) × (x.1 ≤ length bytes.now)) }
{
    match bytes {
        [b'\\', b'"', b'"', b'"', ..] => Ok((Piece::Quotes, 4)),
        _ => source_piece(at, bytes),
    }
}

fn next_piece(kind: StringKind, at: usize, bytes: &[u8]) -> Result<(Piece, usize), LexRefusal>
    ensures exact { Gives (λ x. (piece_text x.0, x.1)) LexRefusal.Memory (character_at kind at bytes.now) result }
    ensures within { IfOk result (λ x. (0 < x.1) × (x.1 ≤ length bytes.now)) }
{
    match kind {
        StringKind::Plain => plain_piece(at, bytes),
        StringKind::Block => block_piece(at, bytes),
    }
}

fn put(out: &mut Vec<u8>, piece: Piece) -> Result<(), Memory>
    ensures { OnOk result (out.new.items ≡ out.old.items ++ piece_text piece) }
{
    match piece {
        Piece::Byte(b) => out.push(b)?,
        Piece::Char(c) => {
            let mut buffer = [0; 4];
            out.extend_from_slice(c.encode_utf8(&mut buffer).as_bytes())?;
        }
        Piece::Quotes => out.extend_from_slice(b"\"\"\"")?,
    }
    Ok(())
}

fn pieces(alloc: Global, kind: StringKind, at: usize, text: &[u8]) -> Result<Vec<u8>, LexRefusal>
    requires { at + length text.now < 2 ^ 64 }
    ensures { Gives (λ v. v.items) LexRefusal.Memory (steps (character_at kind) 0 at text.now) result }
{
    let mut value = Vec::new(alloc);
    let mut done = 0;
    while done < text.len() {
        let (piece, len) = next_piece(kind, at + done, &text[done..])?;
        put(&mut value, piece)?;
        done += len;
    }
    Ok(value)
}

#[tactic(auto, unfolding(crate::specs::Strings::characters))]
// What the characters between the quotes stand for; `at` is the place of the first.
pub(crate) fn characters(
    alloc: Global,
    kind: StringKind,
    at: usize,
    text: &[u8],
) -> Result<Vec<u8>, LexRefusal>
    requires { at + length text.now < 2 ^ 64 }
    ensures { Gives (λ v. v.items) LexRefusal.Memory (characters kind at text.now) result }
{
    let valid = utf8_len(text);
    let value = pieces(alloc, kind, at, &text[..valid])?;
    if valid < text.len() {
        return Err(LexRefusal::NotUtf8 {
            at: (at + valid) as u64,
        });
    }
    Ok(value)
}
