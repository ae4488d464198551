/// Where the rows of a table lie: the number of its first page, how many pages and how many rows it has.
#[derive(Clone, Copy)]
pub struct TableRun {
    pub first: usize,
    pub pages: usize,
    pub rows: usize,
}
