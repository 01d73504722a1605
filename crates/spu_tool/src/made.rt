//! What a command makes.

use crate::status::Status;
use spu_word::Bytes;

/// What a command makes of its input: its status, its output file where there is one, and the text to put.
#[derive(Drop)]
pub struct Made {
    pub status: Status,
    pub file: Option<Bytes>,
    pub text: Bytes,
}
