//! Fields, rows and tables of ELF files, as they are written and checked, for other spellings than
//! those of this crate.

pub use crate::reading::executable_symbols::{after_name, check_name, check_null, first_name};
pub use crate::reading::fields::{
    check_byte, check_bytes, check_half, check_halves, check_word, check_words, check_zeros, fault,
    part, word_at,
};
pub use crate::reading::headers::check_ident;
pub use crate::rows::{Head, front_halves, front_words, gap, place_number, symbol_info};
pub use crate::writing::lengths::object_len;
pub use crate::writing::object::spelled_from;
pub use crate::writing::tables::relocation_entries;
