//! One page: out of the cache, or off the disk into it.
ghost use Rattle.std.specs.Prelude.{◌≡◌, ◌≤◌, ◌<◌, ◌^◌, true, false, cond, length, nat_eq, option_map, IfOk, OnOk, OnErr, IsErrOf, None, Some, is_some};
ghost use Rattle.std.specs.List.{list_any};
ghost use Rattle.std.specs.Map.{lookup, keys_of};
ghost use Rattle.lru.specs.LruCache.{lru_cache, promoted};
ghost use Rattle.hq_io.specs.Causes.{Rose};
ghost use Rattle.hq_load_pages.specs.Counts.{Rises};
ghost use Rattle.hq_load_pages.specs.Held.{are_pieces, due_piece, page_at, WhereTold};
ghost use Rattle.hq_load_pages.specs.Touch.{misses, touched, StaysOrTouched};
ghost use Rattle.hq_load_pages.specs.declared.cache.TouchRefusal.TheVariants as refusal;

use crate::Header;
use crate::page::{PAGE, piece_in};
use hq_base::Memory;
use hq_io::Disk;
use lru::LruCache;
use std::alloc::Global;
use thiserror::Error;

/// Pieces of runs, by the numbers of their pages.
pub type Pieces = LruCache<u64, Vec<u8>>;

/// Why the piece of a page is not there.
#[derive(Clone, Copy, Debug, PartialEq, Eq, Error)]
pub enum TouchRefusal {
    /// The disk failed.
    #[error("the disk failed")]
    Failed,
    /// The page is not the due one.
    #[error("a page is not the due one")]
    Broken,
    #[error("out of memory")]
    Memory,
}

impl From<Memory> for TouchRefusal {
    ghost from_gives = { λ _ e. e ≡ refusal.Memory };

    fn from(_: Memory) -> Self {
        TouchRefusal::Memory
    }
}

// A copy of the piece of a page that is in the cache, which moves it to the front.
fn look(pieces: &mut Pieces, page: u64) -> Result<Option<Vec<u8>>, Memory>
    ensures order { pieces.new ≡ lru_cache (promoted (nat_eq page) pieces.old.entries) pieces.old.cap }
    ensures bytes { IfOk result (λ found. option_map (λ v. v.items) found ≡ option_map (λ v. v.items) (lookup (nat_eq page) pieces.old.entries)) }
{
    match pieces.get(&page) {
        Some(bytes) => Ok(Some(bytes.clone()?)),
        None => Ok(None),
    }
}

// The same, as the list of pages sees it.
fn cached(pieces: &mut Pieces, page: u64) -> Result<Option<Vec<u8>>, Memory>
    ensures there { IfOk result (λ found. is_some found ≡ list_any (nat_eq page) (keys_of pieces.old.entries)) }
    ensures pages { keys_of pieces.new.entries ≡ cond (list_any (nat_eq page) (keys_of pieces.old.entries)) (touched page pieces.old.cap (keys_of pieces.old.entries)) (keys_of pieces.old.entries) }
    ensures cap { pieces.new.cap ≡ pieces.old.cap }
    ensures order { pieces.new.entries ≡ promoted (nat_eq page) pieces.old.entries }
    ensures bytes { IfOk result (λ found. option_map (λ v. v.items) found ≡ option_map (λ v. v.items) (lookup (nat_eq page) pieces.old.entries)) }
{
    let _len = pieces.len();
    look(pieces, page)
}

// A buffer for a page.
fn blank(alloc: Global) -> Result<Vec<u8>, Memory>
    ensures { IfOk result (λ buf. length buf.items ≡ 4096) }
{
    Ok(vec![in alloc; 0u8; PAGE]?)
}

// A copy of a piece.
fn copy(alloc: Global, piece: &[u8]) -> Result<Vec<u8>, Memory>
    ensures { IfOk result (λ copy. copy.items ≡ piece.now) }
{
    Ok(Vec::from_slice(alloc, piece)?)
}

// The bytes of a page off the disk.
fn read_page<K: Disk>(alloc: Global, disk: &mut K, page: u64) -> Result<Vec<u8>, TouchRefusal>
    requires { page < 2 ^ 51 }
    ensures bytes { IfOk result (λ bytes. WhereTold (K.held disk.old) (λ held. bytes.items ≡ page_at held page)) }
    ensures calls { OnOk result (Rises (K.calls disk.old) (K.calls disk.new) 1) }
    ensures failed { IsErrOf result refusal.Failed → Rose (K.faults disk.old) (K.faults disk.new) }
    ensures not_broken { IsErrOf result refusal.Broken → ⊥ }
    ensures held { K.held disk.new ≡ K.held disk.old }
    ensures size { K.size disk.new ≡ K.size disk.old }
    ensures later { K.faults disk.old ≤ K.faults disk.new }
{
    let mut bytes = blank(alloc)?;
    match disk.read_at(PAGE as u64 * page, &mut bytes) {
        Ok(count) => {
            bytes.truncate(count);
            Ok(bytes)
        }
        Err(_) => Err(TouchRefusal::Failed),
    }
}

// A page that is not in the cache: off the disk, tested, and into the cache. Gives its piece.
fn fetch<K: Disk>(
    alloc: Global,
    pieces: &mut Pieces,
    disk: &mut K,
    headers: &[Header],
    page: usize,
) -> Result<Vec<u8>, TouchRefusal>
    requires inside { page < length headers.now }
    requires small { page < 2 ^ 51 }
    requires missed { list_any (nat_eq page) (keys_of pieces.old.entries) ≡ false }
    requires pieces { WhereTold (K.held disk.old) (λ held. are_pieces (λ v. v.items) headers.now held pieces.old.entries ≡ true) }
    ensures cached { OnOk result (keys_of pieces.new.entries ≡ touched page pieces.old.cap (keys_of pieces.old.entries)) }
    ensures err { OnErr result (pieces.new ≡ pieces.old) }
    ensures cap { pieces.new.cap ≡ pieces.old.cap }
    ensures piece { IfOk result (λ piece. WhereTold (K.held disk.old) (λ held. due_piece headers.now held page ≡ Some piece.items)) }
    ensures pieces { WhereTold (K.held disk.old) (λ held. are_pieces (λ v. v.items) headers.now held pieces.new.entries ≡ true) }
    ensures broken { IsErrOf result refusal.Broken → WhereTold (K.held disk.old) (λ held. due_piece headers.now held page ≡ None) }
    ensures calls { OnOk result (Rises (K.calls disk.old) (K.calls disk.new) 1) }
    ensures failed { IsErrOf result refusal.Failed → Rose (K.faults disk.old) (K.faults disk.new) }
    ensures held { K.held disk.new ≡ K.held disk.old }
    ensures later { K.faults disk.old ≤ K.faults disk.new }
{
    let _len = pieces.len();
    let bytes = read_page(alloc, disk, page as u64)?;
    let Some(piece) = piece_in(alloc, headers[page], &bytes)? else {
        return Err(TouchRefusal::Broken);
    };
    let copied = copy(alloc, &piece)?;
    match pieces.put(page as u64, piece) {
        Ok(_) => Ok(copied),
        Err(_) => Err(TouchRefusal::Memory),
    }
}

/// Touches a page, and gives its piece.
pub fn touch_page<K: Disk>(
    alloc: Global,
    pieces: &mut Pieces,
    disk: &mut K,
    headers: &[Header],
    page: usize,
) -> Result<Vec<u8>, TouchRefusal>
    requires inside { page < length headers.now }
    requires small { page < 2 ^ 51 }
    requires pieces { WhereTold (K.held disk.old) (λ held. are_pieces (λ v. v.items) headers.now held pieces.old.entries ≡ true) }
    ensures cached { OnOk result (keys_of pieces.new.entries ≡ touched page pieces.old.cap (keys_of pieces.old.entries)) }
    ensures refused { OnErr result (StaysOrTouched page pieces.old.cap (keys_of pieces.old.entries) (keys_of pieces.new.entries)) }
    ensures cap { pieces.new.cap ≡ pieces.old.cap }
    ensures piece { IfOk result (λ piece. WhereTold (K.held disk.old) (λ held. due_piece headers.now held page ≡ Some piece.items)) }
    ensures pieces { WhereTold (K.held disk.old) (λ held. are_pieces (λ v. v.items) headers.now held pieces.new.entries ≡ true) }
    ensures broken { IsErrOf result refusal.Broken → WhereTold (K.held disk.old) (λ held. due_piece headers.now held page ≡ None) }
    ensures calls { OnOk result (Rises (K.calls disk.old) (K.calls disk.new) (misses page (keys_of pieces.old.entries))) }
    ensures failed { IsErrOf result refusal.Failed → Rose (K.faults disk.old) (K.faults disk.new) }
    ensures held { K.held disk.new ≡ K.held disk.old }
    ensures later { K.faults disk.old ≤ K.faults disk.new }
{
    let _len = pieces.len();
    match cached(pieces, page as u64)? {
        Some(piece) => Ok(piece),
        None => fetch(alloc, pieces, disk, headers, page),
    }
}
