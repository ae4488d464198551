ghost use Rattle.std.specs.Prelude.{◌≡◌, ◌≤◌, ℕ, List, Some, Ok, slice_get};
ghost use Rattle.hq_base.specs.Body.{body_of};
ghost use Rattle.hq_base.specs.Json.{JsonTree};
ghost use Rattle.hq_base.specs.Look.{array_in, member_in};
ghost use Rattle.hq_load_filter.specs.Nesting.{nesting};

/// Does nothing. A body of JSON nests at most 127 deep, and what stands in a value nests no deeper than the value.
pub fn nesting_is_bounded()
    ensures body { (bytes : List ℕ) (j : JsonTree) → body_of bytes ≡ Ok j → nesting j ≤ 127 }
    ensures member { (j value : JsonTree) (name : List ℕ) → member_in j name ≡ Some value → nesting value ≤ nesting j }
    ensures element { (j value : JsonTree) (elements : List JsonTree) (place : ℕ) → array_in j ≡ Some elements → slice_get elements place ≡ Some value → nesting value ≤ nesting j }
{}
