//! What runs are given, and what they show: those of executables and those of objects.

ghost use Rattle.std.specs.Prelude.{◌≡◌, ◌++◌, ◌<◌, ◌/◌, ◌%◌, codes, length, IfOk};
ghost use Rattle.std.specs.List.{flat_map};
ghost use Rattle.spu_tool.specs.Makes.{area_line, count_line, hex_digit, hexadecimal, inputs_of, out_line, shown_text, stop_line, waiting_line};

use crate::areas::areas_of;
use crate::options::RunOptions;
use crate::texts::count_line;
use spu_word::{Area, Bytes, Inputs, OutOfMemory, Seq};
use std::alloc::Global;

/// What a run with these options is given, where its areas' files hold these bytes.
pub fn inputs_of(alloc: Global, options: RunOptions, files: &[Bytes]) -> Result<Inputs, OutOfMemory>
    requires { length files.now ≡ length options.places }
    ensures { IfOk result (λ i. i ≡ inputs_of options files.now) }
{
    let areas = areas_of(alloc, options.places.as_slice(), files)?;
    Ok(Inputs {
        image_ea: options.image,
        mail: options.mail,
        areas,
    })
}

fn hex_digit(n: u32) -> u8
    requires { n < 16 }
    ensures { result ≡ hex_digit n }
{
    if n < 10 {
        b'0' + n as u8
    } else {
        b'a' - 10 + n as u8
    }
}

fn hexadecimal(n: u32) -> [u8; 4]
    ensures { result ≡ hexadecimal n }
{
    [
        hex_digit(n / 4096 % 16),
        hex_digit(n / 256 % 16),
        hex_digit(n / 16 % 16),
        hex_digit(n % 16),
    ]
}

/// The line of a stop instruction's code.
pub fn stop_line(alloc: Global, code: u32) -> Result<Bytes, OutOfMemory>
    ensures { IfOk result (λ t. t ≡ stop_line code) }
{
    let mut line = Seq::copied(alloc, b"stop 0x")?;
    line.extend(&hexadecimal(code))?;
    line.extend(b"\n")?;
    Ok(line)
}

/// A word and a number.
pub fn number_line(alloc: Global, what: &str, number: u32) -> Result<Bytes, OutOfMemory>
    ensures { IfOk result (λ t. t ≡ count_line what.now number) }
{
    let line = count_line(alloc, what, u64::from(number))?;
    Seq::copied(alloc, line.as_bytes())
}

/// A line for each word of the outbound mailbox.
fn out_lines(alloc: Global, words: &[u32]) -> Result<Bytes, OutOfMemory>
    ensures { IfOk result (λ t. t ≡ flat_map out_line words.now) }
{
    let mut text = Seq::new(alloc);
    for word in words {
        text.extend(count_line(alloc, "out", u64::from(*word))?.as_bytes())?;
    }
    Ok(text)
}

/// The line of an area: its bytes in hexadecimal.
fn area_line(alloc: Global, a: &Area) -> Result<Bytes, OutOfMemory>
    ensures { IfOk result (λ t. t ≡ area_line a.now) }
{
    let digits = hex::encode(alloc, a.bytes.as_slice())?;
    let mut line = Seq::copied(alloc, b"area ")?;
    line.extend(a.name.as_slice())?;
    line.extend(b" ")?;
    line.extend(digits.as_bytes())?;
    line.extend(b"\n")?;
    Ok(line)
}

/// A line for each area.
fn area_lines(alloc: Global, areas: &[Area]) -> Result<Bytes, OutOfMemory>
    ensures { IfOk result (λ t. t ≡ flat_map area_line areas.now) }
{
    let mut text = Seq::new(alloc);
    for area in areas {
        text.extend(area_line(alloc, area)?.as_slice())?;
    }
    Ok(text)
}

/// The line of transfers that wait, where there are some.
fn waiting_line(alloc: Global, waiting: u32) -> Result<Bytes, OutOfMemory>
    ensures { IfOk result (λ t. t ≡ waiting_line waiting) }
{
    if waiting == 0 {
        Ok(Seq::new(alloc))
    } else {
        number_line(alloc, "waiting", waiting)
    }
}

/// What a run shows: the words of its outbound mailbox, its areas, how many transfers wait, the line of its end, and how many
/// steps it made.
pub fn shown_text(
    alloc: Global,
    output: &[u32],
    areas: &[Area],
    waiting: u32,
    end: &[u8],
    steps: u64,
) -> Result<Bytes, OutOfMemory>
    ensures { IfOk result (λ t. t ≡ shown_text output.now areas.now waiting end.now steps) }
{
    let mut text = out_lines(alloc, output)?;
    text.extend(area_lines(alloc, areas)?.as_slice())?;
    text.extend(waiting_line(alloc, waiting)?.as_slice())?;
    text.extend(end)?;
    text.extend(count_line(alloc, "steps", steps)?.as_bytes())?;
    Ok(text)
}
