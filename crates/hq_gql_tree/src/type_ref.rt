use hq_base::Txt;

/// A type of a variable (GraphQL October 2021, 2.11).
#[derive(Drop)]
pub enum TypeRefTree {
    Named { at: u64, name: Txt },
    List { at: u64, of: Box<TypeRefTree> },
    NonNull { at: u64, of: Box<TypeRefTree> },
}
