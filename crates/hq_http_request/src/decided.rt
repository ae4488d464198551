ghost use Rattle.hq_http_request.specs.Laws.{HeadDecides, TargetsAreOpen};

/// A head of at most 64 fields at the front of the bytes at hand decides what they hold. Without one, two choices are
/// left: between a head that is too large and one that is malformed or not yet whole, where it has more than 64 fields;
/// and between a head that is malformed and one that is not yet whole, where the bytes end inside its target.
pub fn a_head_decides()
    ensures decides { HeadDecides }
    ensures targets { TargetsAreOpen }
{}
