//! Rows of one width, held one after the other.
ghost use Rattle.std.specs.Prelude.{◌≡◌, ◌*◌, [], length, slice_index_or};
ghost use Rattle.hq_load_index.specs.Chunks.{chunked};

use hq_base::Val;

/// Rows of values, each as long as the others. They lie one after the other in memory, with nothing between them.
#[derive(Drop)]
pub struct Grid {
    width: usize,
    count: usize,
    values: Vec<Val>,
    ghost whole: { length values.items ≡ count * width },
}

impl Grid {
    ghost use Rattle.hq_load_index.specs.Grids.{rows_in};

    /// So many rows of this width, whose values stand one after the other. Takes no memory.
    pub fn of(width: usize, count: usize, values: Vec<Val>) -> Self
        requires { length values.items ≡ count * width }
        ensures { rows_in result ≡ chunked width count values.items }
    {
        Grid {
            width,
            count,
            values,
        }
    }

    /// How many rows there are.
    pub fn len(&self) -> usize
        ensures { result ≡ length (rows_in self.now) }
    {
        self.count
    }

    /// The row at this place, counted from 0, and no value where there is none.
    pub fn row(&self, at: usize) -> &[Val]
        ensures { result.now ≡ slice_index_or (rows_in self.now) at [] }
    {
        if at >= self.count {
            return &[];
        }
        let from = at * self.width;
        &self.values[from..from + self.width]
    }
}
