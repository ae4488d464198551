//! A page of a disk, both ways.
ghost use Rattle.std.specs.Prelude.{◌≡◌, ◌++◌, length, IfOk, OnOk, MatchOption, None, Some, nat_eq};
ghost use Rattle.std.specs.List.{list_all};
ghost use Rattle.hq_load_pages.specs.Pages.{bytes_of_header, page_of, piece_of};

use crate::Header;
use hq_base::Memory;
use std::alloc::Global;

/// The bytes of a page.
pub const PAGE: usize = 4096;

/// The most bytes of a piece. The other 10 bytes of its page are the header.
pub const PIECE: usize = 4086;

impl Header {
    // Adds its bytes.
    fn push_bytes(self, out: &mut Vec<u8>) -> Result<(), Memory>
        ensures { OnOk result (out.new.items ≡ out.old.items ++ bytes_of_header self) }
    {
        out.extend_from_slice(&self.table.to_be_bytes())?;
        out.extend_from_slice(&self.piece.to_be_bytes())?;
        out.extend_from_slice(&self.length.to_be_bytes())?;
        Ok(())
    }

    // Its bytes.
    fn bytes(self, alloc: Global) -> Result<Vec<u8>, Memory>
        ensures { IfOk result (λ bytes. bytes.items ≡ bytes_of_header self) }
    {
        let mut bytes = Vec::new(alloc);
        self.push_bytes(&mut bytes)?;
        Ok(bytes)
    }
}

/// The page of a piece.
pub fn page_with(alloc: Global, due: Header, piece: &[u8]) -> Result<Vec<u8>, Memory>
    requires { length piece.now ≡ due.length }
    ensures page { IfOk result (λ bytes. bytes.items ≡ page_of due piece.now) }
    ensures back { IfOk result (λ bytes. piece_of due bytes.items ≡ Some piece.now) }
    ensures length { IfOk result (λ bytes. length bytes.items ≡ 4096) }
{
    let mut bytes = due.bytes(alloc)?;
    bytes.extend_from_slice(piece)?;
    let zeros = vec![in alloc; 0u8; PIECE - piece.len()]?;
    bytes.extend_from_slice(&zeros)?;
    Ok(bytes)
}

// Whether all bytes are zero.
fn are_zero(bytes: &[u8]) -> bool
    ensures { result ≡ list_all (λ b. nat_eq b 0) bytes.now }
{
    bytes.iter().all(|b| *b == 0)
}

/// The piece that a page has, where it is the due page.
pub fn piece_in(alloc: Global, due: Header, page: &[u8]) -> Result<Option<Vec<u8>>, Memory>
    ensures { IfOk result (λ found. MatchOption found (piece_of due page.now ≡ None) (λ piece. piece_of due page.now ≡ Some piece.items)) }
{
    if page.len() != PAGE {
        return Ok(None);
    }
    let header = due.bytes(alloc)?;
    let (front, behind) = page.split_at(10);
    let (_, rest) = page.split_at(10 + due.length as usize);
    if front != header.as_slice() || !are_zero(rest) {
        return Ok(None);
    }
    let (piece, _) = behind.split_at(due.length as usize);
    Ok(Some(Vec::from_slice(alloc, piece)?))
}
