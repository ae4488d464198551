//! OFFSET and LIMIT (PostgreSQL, LIMIT and OFFSET).
ghost use Rattle.std.specs.Prelude.{◌≡◌};
ghost use Rattle.hq_sql_tree.specs.Meaning.{limited, offset_by};

/// The rows from an offset on, and of these at most so many as the limit says.
pub fn paged<T: Drop>(rows: Vec<T>, offset: Option<u64>, limit: Option<u64>) -> Vec<T>
    ensures { result.items ≡ limited limit (offset_by offset rows.items) }
{
    up_to(from_offset(rows, offset), limit)
}

fn from_offset<T: Drop>(mut rows: Vec<T>, offset: Option<u64>) -> Vec<T>
    ensures { result.items ≡ offset_by offset rows.items }
{
    match offset {
        Some(n) if (n as usize) < rows.len() => {
            rows.drain(..n as usize);
        }
        Some(_) => rows.clear(),
        None => {}
    }
    rows
}

fn up_to<T: Drop>(mut rows: Vec<T>, limit: Option<u64>) -> Vec<T>
    ensures { result.items ≡ limited limit rows.items }
{
    if let Some(n) = limit {
        rows.truncate(n as usize);
    }
    rows
}
