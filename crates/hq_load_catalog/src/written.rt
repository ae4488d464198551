use hq_base::{List, Txt};
use hq_model::ColumnList;

/// Names, in the file's order.
pub type NameList = List<Txt>;

/// A foreign key as the file writes it: by names.
#[derive(Drop)]
pub struct WrittenForeignKey {
    pub columns: NameList,
    pub schema: Txt,
    pub table: Txt,
    pub references: NameList,
}

/// Foreign keys, in the file's order.
pub type WrittenForeignKeyList = List<WrittenForeignKey>;

/// A table as the file writes it: its key and its foreign keys are by names, and its columns are as nullable as they
/// say themselves.
#[derive(Drop)]
pub struct WrittenTable {
    pub schema: Txt,
    pub name: Txt,
    pub columns: ColumnList,
    pub key: NameList,
    pub foreign: WrittenForeignKeyList,
}

/// Tables, in the file's order.
pub type WrittenTableList = List<WrittenTable>;
