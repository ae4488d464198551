ghost use Rattle.std.specs.Prelude.{◌≡◌, ◌-◌, ◌&&◌, [], take, drop, length, nat_le, if◌then◌else◌};

/// The bytes from one place to another, none where there is no such piece.
pub fn piece(text: &[u8], start: usize, end: usize) -> &[u8]
    ensures { result.now ≡ (if nat_le start end && nat_le end (length text.now) then take (end - start) (drop start text.now) else []) }
{
    if start <= end && end <= text.len() {
        &text[start..end]
    } else {
        &[]
    }
}
