//! What is made of objects that aren't linked: the fault's line.

ghost use Rattle.std.specs.Prelude.{◌≡◌, ◌≢◌, ◌++◌, [], codes, slice_index_or, string_bytes, IfOk};
ghost use Rattle.spu_tool.specs.Arguments.{texts_of};
ghost use Rattle.spu_tool.specs.LinkLines.{cycle_line, frame_name, lift_line, lift_name, link_line, pair_line, place_line, symbol_line};
ghost use Rattle.spu_tool.specs.Makes.{count_line, refused};
ghost use Rattle.spu_image.specs.declared.outcome.LinkFault.TheVariants as links;

use crate::made::Made;
use crate::status::Status;
use crate::texts::count_line;
use spu_frame::FrameKind;
use spu_image::LinkFault;
use spu_lift::{LiftFault, LiftKind};
use spu_word::{Bytes, Name, OutOfMemory, Seq};
use std::alloc::Global;

/// The number and the name of a fault of objects.
fn lift_name(kind: LiftKind) -> &'static str
    ensures { result.now ≡ lift_name kind }
{
    match kind {
        LiftKind::DuplicateSymbol => "L1 DuplicateSymbol",
        LiftKind::UndefinedSymbol => "L2 UndefinedSymbol",
        LiftKind::ReservedName => "L3 ReservedName",
        LiftKind::NoEntry => "L4 NoEntry",
        LiftKind::Misaligned => "L5 Misaligned",
        LiftKind::CodeOutsideFunction => "L6 CodeOutsideFunction",
        LiftKind::FunctionOverlap => "L7 FunctionOverlap",
        LiftKind::UnknownInstruction => "L8 UnknownInstruction",
        LiftKind::BadRelocation => "L9 BadRelocation",
        LiftKind::BadTarget => "L10 BadTarget",
        LiftKind::CodeAddend => "L11 CodeAddend",
        LiftKind::LinkRegister => "L12 LinkRegister",
        LiftKind::ReadsCode => "L13 ReadsCode",
    }
}

/// The number and the name of a fault of frames.
fn frame_name(kind: FrameKind) -> &'static str
    ensures { result.now ≡ frame_name kind }
{
    match kind {
        FrameKind::StackWrite => "L14 StackWrite",
        FrameKind::DepthDisagrees => "L15 DepthDisagrees",
        FrameKind::DepthAtExit => "L16 DepthAtExit",
        FrameKind::DepthRange => "L17 DepthRange",
    }
}

/// The line of a fault of a name.
fn symbol_line(alloc: Global, what: &str, name: &[u8]) -> Result<Bytes, OutOfMemory>
    ensures { IfOk result (λ t. t ≡ symbol_line what.now name.now) }
{
    let mut line = Seq::copied(alloc, what.as_bytes())?;
    line.extend(b" ")?;
    line.extend(name)?;
    line.extend(b"\n")?;
    Ok(line)
}

/// The line of a fault at an offset of what has this name.
fn place_line(alloc: Global, what: &str, name: &[u8], offset: u32) -> Result<Bytes, OutOfMemory>
    ensures { IfOk result (λ t. t ≡ place_line what.now name.now offset) }
{
    let mut line = Seq::copied(alloc, what.as_bytes())?;
    line.extend(b" ")?;
    line.extend(name)?;
    line.extend(format!(in alloc; " {offset}\n")?.as_bytes())?;
    Ok(line)
}

#[tactic(auto, using(crate::proofs::FileNames::name_there, crate::proofs::FileNames::name_missing))]
/// The file of this number, empty where there is none.
pub fn file_name<'a>(files: &[&'a str], number: usize) -> &'a str
    ensures { result.now ≡ slice_index_or (texts_of files.now) number [] }
{
    match files.get(number) {
        Some(file) => file,
        None => "",
    }
}

/// A fault's name, and the file that it is in.
fn in_file(alloc: Global, kind: LiftKind, file: &str) -> Result<String, OutOfMemory>
    ensures { IfOk result (λ t. string_bytes t ≡ lift_name kind ++ codes " " ++ file.now) }
{
    let name = lift_name(kind);
    Ok(format!(in alloc; "{name} {file}")?)
}

/// Why objects of these files stand for no program. Want of memory has no line.
fn lift_line(alloc: Global, files: &[&str], fault: &LiftFault) -> Result<Bytes, OutOfMemory>
    ensures { IfOk result (λ t. t ≡ lift_line (texts_of files.now) fault.now) }
{
    match fault {
        LiftFault::NoEntry => Seq::copied(alloc, b"L4 NoEntry\n"),
        LiftFault::Symbol { kind, name } => symbol_line(alloc, lift_name(*kind), name.as_slice()),
        LiftFault::Site {
            kind,
            object,
            section,
            offset,
        } => {
            let what = in_file(alloc, *kind, file_name(files, *object as usize))?;
            place_line(alloc, what.as_str(), section.as_slice(), *offset)
        }
        LiftFault::Word {
            kind,
            function,
            offset,
        } => place_line(alloc, lift_name(*kind), function.as_slice(), *offset),
        LiftFault::OutOfMemory => Ok(Seq::new(alloc)),
    }
}

/// The line of the functions of a cycle.
fn cycle_line(alloc: Global, names: &[Name]) -> Result<Bytes, OutOfMemory>
    ensures { IfOk result (λ t. t ≡ cycle_line names.now) }
{
    let mut line = Seq::copied(alloc, b"L18 Recursion")?;
    for name in names {
        line.extend(b" ")?;
        line.extend(name.as_slice())?;
    }
    line.extend(b"\n")?;
    Ok(line)
}

/// The text of a fault with two numbers.
fn pair_text(alloc: Global, what: &str, first: u64, second: u64) -> Result<String, OutOfMemory>
    ensures { IfOk result (λ t. string_bytes t ≡ pair_line what.now first second) }
{
    Ok(format!(in alloc; "{what} {first} {second}\n")?)
}

/// The line of a fault with two numbers.
fn pair_line(alloc: Global, what: &str, first: u64, second: u64) -> Result<Bytes, OutOfMemory>
    ensures { IfOk result (λ t. t ≡ pair_line what.now first second) }
{
    let line = pair_text(alloc, what, first, second)?;
    Seq::copied(alloc, line.as_bytes())
}

/// The line of a fault with a number.
fn number_line(alloc: Global, what: &str, number: u64) -> Result<Bytes, OutOfMemory>
    ensures { IfOk result (λ t. t ≡ count_line what.now number) }
{
    let line = count_line(alloc, what, number)?;
    Seq::copied(alloc, line.as_bytes())
}

/// Why objects of these files aren't linked.
fn line_of(alloc: Global, files: &[&str], fault: &LinkFault) -> Result<Bytes, OutOfMemory>
    ensures line { IfOk result (λ t. t ≡ link_line (texts_of files.now) fault.now) }
    ensures told { IfOk result (λ t. fault.now ≢ links.OutOfMemory) }
{
    match fault {
        LinkFault::Lift(fault) => lift_line(alloc, files, fault),
        LinkFault::Frame { kind, name, offset } => {
            place_line(alloc, frame_name(*kind), name.as_slice(), *offset)
        }
        LinkFault::Recursion(names) => cycle_line(alloc, names.as_slice()),
        LinkFault::StackLimit { need, limit } => {
            pair_line(alloc, "L19 StackLimit", *need, u64::from(*limit))
        }
        LinkFault::TooLarge { least, room } => {
            pair_line(alloc, "L20 TooLarge", *least, u64::from(*room))
        }
        LinkFault::FileTooLarge { size } => number_line(alloc, "L21 FileTooLarge", *size),
        LinkFault::OutOfMemory => Err(OutOfMemory),
    }
}

/// A refusal of objects of these files.
pub fn link_refusal(alloc: Global, files: &[&str], fault: &LinkFault) -> Result<Made, OutOfMemory>
    ensures line { IfOk result (λ m. m ≡ refused (link_line (texts_of files.now) fault.now)) }
    ensures told { IfOk result (λ m. fault.now ≢ links.OutOfMemory) }
{
    Ok(Made {
        status: Status::Refused,
        file: None,
        text: line_of(alloc, files, fault)?,
    })
}
