//! The numbers that decimal digits spell.

pub use ms_ir::spelling::is_digits;
pub use ms_lex::decimal;
