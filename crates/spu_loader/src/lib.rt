//! The loader of overlay images: its words, and what it does.
#![tactic(auto)]

pub mod constants;
mod encoding;
mod forms;
mod laws;
mod table;

pub use encoding::{loader_words, stub_words};
pub use laws::{
    first_is_ready, keeps_below, load_entry, loads_as_missed, ready_again, return_entry,
    second_is_ready, settles,
};
pub use table::Loader;
