//! The tokens of a text, line by line.

ghost use Rattle.std.specs.Prelude.{◌≡◌, ◌+◌, ◌<◌, ◌≤◌, ◌^◌, length, IfOk};
ghost use Rattle.std.specs.List.{prefix_len, list_all};
ghost use Rattle.spu_word.specs.declared.limits.TheConstants.{MAX_FILE_SIZE};
ghost use Rattle.spu_text.specs.Texts.{is_no_newline, is_source_byte, line_len, content, line_read, lines_of, text_read};
ghost use Rattle.spu_text.specs.Reads.{Gives, Adds};
ghost use Rattle.spu_text.specs.Order.{AreInOrder};

use crate::lexemes::{TextFault, Token};
use crate::scanning::scan;
use spu_word::Seq;
use spu_word::limits::MAX_LINE_SIZE;
use std::alloc::Global;

#[tactic(auto, unfolding(crate::specs::Texts::is_source_byte))]
fn is_source_byte(b: u8) -> bool
    ensures { result ≡ is_source_byte b }
{
    b == b'\t' || b == b'\n' || b == b'\r' || (b' ' <= b && b <= b'~')
}

/// How many bytes stand before the first byte 10.
fn body_len(text: &[u8]) -> usize
    requires { length text.now < 2 ^ 32 }
    ensures len { result ≡ prefix_len is_no_newline text.now }
    ensures within { result ≤ length text.now }
{
    text.iter().take_while(|b| **b != b'\n').count()
}

/// Whether a text may have each of the bytes.
pub(crate) fn is_source(bytes: &[u8]) -> bool
    ensures { result ≡ list_all is_source_byte bytes.now }
{
    bytes.iter().all(|b| is_source_byte(*b))
}

/// How many bytes the first line has, with its end.
pub(crate) fn line_len(text: &[u8]) -> usize
    requires { length text.now < 2 ^ 32 }
    ensures len { result ≡ line_len text.now }
    ensures within { result ≤ length text.now }
    ensures some { 0 < length text.now → 0 < result }
{
    (body_len(text) + 1).min(text.len())
}

/// A line without its end.
#[tactic(auto, unfolding(crate::specs::Texts::content))]
pub(crate) fn content(line: &[u8]) -> &[u8]
    requires { length line.now < 2 ^ 32 }
    ensures value { result.now ≡ content line.now }
    ensures within { length result.now ≤ length line.now }
{
    let n = body_len(line);
    if n < line.len() && n > 0 && line[n - 1] == b'\r' {
        &line[..n - 1]
    } else {
        &line[..n]
    }
}

/// Adds the tokens of a line.
#[tactic(auto, unfolding(crate::specs::Texts::line_read))]
fn read_line(all: &mut Seq<Token>, line: &[u8], start: usize, number: u32) -> Result<(), TextFault>
    requires short { length line.now < 2 ^ 32 }
    requires early { start < 2 ^ 32 }
    ensures { Adds result all.old all.new (line_read number start line.now) }
{
    let bytes = content(line);
    if !is_source(bytes) {
        return Err(TextFault::NotAscii(number));
    }
    if bytes.len() > MAX_LINE_SIZE as usize {
        return Err(TextFault::LineTooLong(number));
    }
    scan(all, bytes, start, number)
}

/// How many lines a text has. Bytes behind the last byte 10 are a line too.
pub fn line_count(text: &[u8]) -> u32
    requires { length text.now ≤ MAX_FILE_SIZE }
    ensures { result ≡ length (lines_of text.now) }
{
    let mut rest = text;
    let mut count = 0;
    while !rest.is_empty() {
        rest = rest.split_at(line_len(rest)).1;
        count += 1;
    }
    count
}

/// The tokens of a text, in order: slices of it, with blanks, ends of lines and comments alone between
/// them and behind the last. The text has at most `MAX_FILE_SIZE` bytes.
pub fn tokens(alloc: Global, text: &[u8]) -> Result<Seq<Token>, TextFault>
    requires { length text.now ≤ MAX_FILE_SIZE }
    ensures tokens { Gives result (text_read text.now) }
    ensures order { IfOk result (AreInOrder text.now 0) }
{
    let mut all = Seq::new(alloc);
    let mut rest = text;
    let mut start = 0;
    let mut number = 1;
    while !rest.is_empty() {
        let (line, after) = rest.split_at(line_len(rest));
        read_line(&mut all, line, start, number)?;
        start += line.len();
        number += 1;
        rest = after;
    }
    Ok(all)
}
