// What an operation names: a collection that it reads, or a function that it calls.
use script_program::Signature;
use type_table::TypeId;

/// A collection that an operation reads: its number, the type of its members, and whether it is an
/// object.
#[derive(Clone, Copy)]
pub struct Operand {
    pub number: usize,
    pub ty: TypeId,
    pub is_object: bool,
}

/// A function that an operation calls: its number, and what it takes and gives.
#[derive(Clone, Copy)]
pub struct Callee<'a> {
    pub number: usize,
    pub signature: &'a Signature,
}
