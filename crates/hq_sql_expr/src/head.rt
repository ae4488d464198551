use hq_base::Aggregate;

/// What a JSON object or an aggregate begins with.
#[derive(Clone, Copy, PartialEq, Eq)]
pub enum Head {
    Object,
    CountAll,
    CountDistinct,
    Count,
    JsonAgg,
    Take(Aggregate),
}
