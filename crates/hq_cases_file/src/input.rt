//! The bytes that a case writes: a piece, or an array of pieces, which follow one another. A piece is a text; a whole
//! number from 0 to 255, which is a byte; `{"json": VALUE}`, the compact text of the value; or
//! `{"times": N, "of": PIECES}`, in which `null` is the number of the turn, from 0 up, and with `"down"` from N - 1 down.

use crate::Stop;
use hq_base::{Bytes, Json, Txt};
use std::alloc::Global;

/// The bytes that a value writes.
pub fn bytes(alloc: Global, json: &Json) -> Result<Bytes, Stop> {
    let mut out = Bytes::new(alloc);
    match json {
        Json::Arr(pieces) => {
            for piece in pieces {
                push_piece(alloc, piece, &mut out)?;
            }
        }
        _ => push_piece(alloc, json, &mut out)?,
    }
    Ok(out)
}

/// The text that a value writes.
pub fn text(alloc: Global, json: &Json) -> Result<Txt, Stop> {
    let bytes = bytes(alloc, json)?;
    Ok(Txt::of(alloc, bytes.as_slice())?)
}

fn push_piece(alloc: Global, piece: &Json, out: &mut Bytes) -> Result<(), Stop> {
    match piece.member("json") {
        Some(value) => Ok(value.write_to(alloc, out)?),
        None => match piece {
            Json::Obj(_) => push_times(alloc, piece, out),
            _ => push_atom(alloc, piece, 0, out),
        },
    }
}

fn push_times(alloc: Global, piece: &Json, out: &mut Bytes) -> Result<(), Stop> {
    let (Some(Json::Int(times)), Some(of)) = (piece.member("times"), piece.member("of")) else {
        return Err(Stop::Shape);
    };
    let Ok(times) = u32::try_from(*times) else {
        return Err(Stop::Shape);
    };
    let down = piece.member("down").is_some();
    for turn in 0..times {
        let number = if down { times - 1 - turn } else { turn };
        push_turn(alloc, of, number, out)?;
    }
    Ok(())
}

fn push_turn(alloc: Global, of: &Json, turn: u32, out: &mut Bytes) -> Result<(), Stop> {
    match of {
        Json::Arr(atoms) => {
            for atom in atoms {
                push_atom(alloc, atom, turn, out)?;
            }
            Ok(())
        }
        _ => push_atom(alloc, of, turn, out),
    }
}

fn push_atom(alloc: Global, atom: &Json, turn: u32, out: &mut Bytes) -> Result<(), Stop> {
    match atom {
        Json::Str(text) => Ok(out.append(text.as_bytes())?),
        Json::Int(n) => push_byte(*n, out),
        Json::Null => Ok(out.append(format!(in alloc; "{turn}")?.as_bytes())?),
        _ => Err(Stop::Shape),
    }
}

fn push_byte(n: i128, out: &mut Bytes) -> Result<(), Stop> {
    match u8::try_from(n) {
        Ok(byte) => Ok(out.push(byte)?),
        Err(_) => Err(Stop::Shape),
    }
}
