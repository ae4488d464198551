/// What a session variable's text is to be read as.
#[derive(Clone, Copy, Debug)]
pub enum Want {
    Integer,
    Bigint,
    Boolean,
    Uuid,
    Pattern,
    IntegerList,
    BigintList,
    TextList,
    BooleanList,
    UuidList,
}
