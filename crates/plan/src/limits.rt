// The limits of the language.
pub use marks::limits::TEXT;

// Parentheses and brackets that are open at once.
pub const NESTING: u8 = 16;
// REPEATs that are open at once.
pub const REPEATS: usize = 4;
