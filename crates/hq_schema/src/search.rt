ghost use Rattle.std.specs.Prelude.{◌≡◌, [], map, find, bytes_eq};
ghost use Rattle.hq_base.specs.Lists.{Ascends};
ghost use Rattle.hq_schema.specs.Sorted.{name_at, by_name};

use crate::Named;
use hq_base::Txt;
use std::cmp::Ordering;

// The name at a place, empty beyond the last.
fn name_at<T: Named>(items: &[T], at: usize) -> &[u8]
    ensures { result.now ≡ name_at (map T.name_of items.now) at }
{
    match items.get(at) {
        Some(item) => item.name().as_bytes(),
        None => &[],
    }
}

/// The first of these places at which this name stands, where the places ascend by the names at them.
pub fn first_at<T: Named>(items: &[T], places: &[usize], name: &Txt) -> Option<usize>
    requires { Ascends (by_name (map T.name_of items.now)) places.now }
    ensures { result ≡ find (λ i. bytes_eq (name_at (map T.name_of items.now) i) name.now) places.now }
{
    if places.is_empty() {
        return None;
    }
    let middle = places.len() / 2;
    let at = places[middle];
    match name_at(items, at).cmp(name.as_bytes()) {
        Ordering::Less => first_at(items, &places[middle + 1..], name),
        Ordering::Equal => Some(first_at(items, &places[..middle], name).unwrap_or(at)),
        Ordering::Greater => first_at(items, &places[..middle], name),
    }
}
