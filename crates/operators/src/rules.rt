//! The sort rules of the operators, and the widest sort.

// A sort rule.
#[derive(Clone, Copy, Debug, PartialEq, Eq)]
pub enum Rule {
    // Operands Bool, result Bool.
    Logic,
    // Operands of one sort, result Bool.
    Equality,
    // A Bool and two operands of one sort, which is the result's.
    Choice,
    // Operands of one width, which is the result's.
    Width,
    // Operands of one width, result Bool.
    Order,
    // The result as wide as its two operands together.
    Joining,
    // Some bits of the operand.
    Cutting,
}

// The widest vector.
pub const MAX_WIDTH: u64 = 64;
