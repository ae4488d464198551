//! A cell as bytes, both ways.
ghost use Rattle.std.specs.Prelude.{◌≡◌, ◌∷◌, ◌++◌, IfOk, IfSome, OnOk, length, MatchOption, None, Some};
ghost use Rattle.std.specs.Int.{w32, to_be_bytes};
ghost use Rattle.hq_load_pages.specs.Cells.{cell_bytes, cell_front, int_front, text_front, text_of_length, ReadsBack};

use hq_base::{Memory, Txt, TxtRefusal, Val};
use std::alloc::Global;

// Adds a whole number behind its tag.
fn write_int(out: &mut Vec<u8>, n: i64) -> Result<(), Memory>
    ensures bytes { OnOk result (out.new.items ≡ out.old.items ++ cell_bytes (Val.Int n)) }
    ensures back { ReadsBack (Val.Int n) }
{
    out.push(1)?;
    out.extend_from_slice(&n.cast_unsigned().to_be_bytes())?;
    Ok(())
}

// Adds a text behind its tag and its length. A text of 2 ^ 32 bytes is too long for any memory.
fn write_text(out: &mut Vec<u8>, text: &Txt) -> Result<(), Memory>
    ensures bytes { OnOk result (out.new.items ≡ out.old.items ++ cell_bytes (Val.Text text.now)) }
    ensures back { OnOk result (ReadsBack (Val.Text text.now)) }
{
    let bytes = text.as_bytes();
    if bytes.len() > u32::MAX as usize {
        return Err(Memory);
    }
    text.is_text();
    out.push(2)?;
    out.extend_from_slice(&(bytes.len() as u32).to_be_bytes())?;
    out.extend_from_slice(bytes)?;
    Ok(())
}

/// Adds the bytes of a cell, from which it reads back.
pub fn write_cell(out: &mut Vec<u8>, value: &Val) -> Result<(), Memory>
    ensures bytes { OnOk result (out.new.items ≡ out.old.items ++ cell_bytes value.now) }
    ensures back { OnOk result (ReadsBack value.now) }
{
    match value {
        Val::Null => out.push(0)?,
        Val::Int(n) => write_int(out, *n)?,
        Val::Text(text) => write_text(out, text)?,
        Val::Bool(false) => out.push(3)?,
        Val::Bool(true) => out.push(4)?,
    }
    Ok(())
}

/// A cell at the front of bytes, and those behind it.
#[derive(Drop)]
pub struct Cell<'b> {
    pub value: Val,
    pub rest: &'b [u8],
}

impl<'b> Cell<'b> {
    fn new(value: Val, rest: &'b [u8]) -> Self
        ensures value { result.value ≡ value }
        ensures rest { result.rest.now ≡ rest.now }
    {
        Cell { value, rest }
    }
}

// The whole number of the 8 bytes behind its tag.
fn read_int(bytes: &[u8]) -> Option<Cell<'_>>
    ensures read { MatchOption result (int_front bytes.now ≡ None) (λ read. int_front bytes.now ≡ Some (read.value, read.rest.now)) }
    ensures exact { IfSome result (λ read. cell_bytes read.value ++ read.rest.now ≡ 1 ∷ bytes.now) }
{
    if bytes.len() < 8 {
        return None;
    }
    let (front, rest) = bytes.split_at(8);
    let n = u64::from_be_bytes([
        front[0], front[1], front[2], front[3], front[4], front[5], front[6], front[7],
    ]);
    Some(Cell::new(Val::Int(n.cast_signed()), rest))
}

// The text of this length.
fn read_text_of(alloc: Global, length: usize, bytes: &[u8]) -> Result<Option<Cell<'_>>, Memory>
    ensures read { IfOk result (λ found. MatchOption found (text_of_length length bytes.now ≡ None) (λ read. text_of_length length bytes.now ≡ Some (read.value, read.rest.now))) }
    ensures exact { IfOk result (λ found. IfSome found (λ read. cell_bytes read.value ++ read.rest.now ≡ 2 ∷ to_be_bytes w32 length ++ bytes.now)) }
{
    if bytes.len() < length {
        return Ok(None);
    }
    let (front, rest) = bytes.split_at(length);
    match Txt::of(alloc, front) {
        Ok(text) => Ok(Some(Cell::new(Val::Text(text), rest))),
        Err(TxtRefusal::Memory) => Err(Memory),
        Err(_) => Ok(None),
    }
}

// The text whose length stands in the 4 bytes behind its tag.
fn read_text(alloc: Global, bytes: &[u8]) -> Result<Option<Cell<'_>>, Memory>
    ensures read { IfOk result (λ found. MatchOption found (text_front bytes.now ≡ None) (λ read. text_front bytes.now ≡ Some (read.value, read.rest.now))) }
    ensures exact { IfOk result (λ found. IfSome found (λ read. cell_bytes read.value ++ read.rest.now ≡ 2 ∷ bytes.now)) }
{
    if bytes.len() < 4 {
        return Ok(None);
    }
    let (front, rest) = bytes.split_at(4);
    let length = u32::from_be_bytes([front[0], front[1], front[2], front[3]]);
    read_text_of(alloc, length as usize, rest)
}

/// The cell at the front of the bytes, where there is one.
pub fn read_cell(alloc: Global, bytes: &[u8]) -> Result<Option<Cell<'_>>, Memory>
    ensures read { IfOk result (λ found. MatchOption found (cell_front bytes.now ≡ None) (λ read. cell_front bytes.now ≡ Some (read.value, read.rest.now))) }
    ensures exact { IfOk result (λ found. IfSome found (λ read. cell_bytes read.value ++ read.rest.now ≡ bytes.now)) }
{
    let Some((tag, rest)) = bytes.split_first() else {
        return Ok(None);
    };
    match *tag {
        0 => Ok(Some(Cell::new(Val::Null, rest))),
        1 => Ok(read_int(rest)),
        2 => read_text(alloc, rest),
        3 => Ok(Some(Cell::new(Val::Bool(false), rest))),
        4 => Ok(Some(Cell::new(Val::Bool(true), rest))),
        _ => Ok(None),
    }
}
