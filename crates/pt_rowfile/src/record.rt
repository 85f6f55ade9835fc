use pt_ast::Row;

/// A record of a row file.
#[derive(Drop)]
pub enum Record {
    /// A row is put.
    Put(Row),
    /// The row of this serial is deleted.
    Delete(u64),
}
