use pt_ast::Refusal;

/// Why a text has no complete definition.
#[derive(Clone, Copy)]
pub enum DefFault {
    /// The first check of the text that fails.
    Refused(Refusal),
    /// Memory was wanting.
    NoMemory,
}
