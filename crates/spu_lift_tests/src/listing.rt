//! The text of what lifting answers: of a program, with all that it has, and of a fault.

use spu_lift::{Function, LiftFault, Part, Prog};
use spu_word::OutOfMemory;
use std::alloc::Global;

/// Adds a name.
fn push_name(text: &mut String, name: &[u8]) -> Result<(), OutOfMemory> {
    for c in name {
        text.push(*c as char)?;
    }
    Ok(())
}

/// Adds numbers, each behind a blank, and the line's end.
fn push_numbers(text: &mut String, alloc: Global, numbers: &[u32]) -> Result<(), OutOfMemory> {
    for n in numbers {
        text.push_str(format!(in alloc; " {n}")?.as_str())?;
    }
    text.push('\n')?;
    Ok(())
}

/// Adds a function: its name, whether it is global, section, offset and taken places; and a line for each instruction, with its
/// operation, registers rt and ra, immediate and operand.
fn push_function(text: &mut String, alloc: Global, f: &Function) -> Result<(), OutOfMemory> {
    push_name(text, f.name.as_slice())?;
    let (global, section, offset) = (f.global, f.section, f.offset);
    text.push_str(format!(in alloc; " {global} {section} {offset} taken")?.as_str())?;
    push_numbers(text, alloc, f.taken.as_slice())?;
    for s in f.code.as_slice() {
        let (op, rt, ra, imm, operand) = (s.inst.op, s.inst.rt, s.inst.ra, s.inst.imm, s.operand);
        let line = format!(in alloc; "  {op:?} {rt} {ra} {imm} {operand:?}\n")?;
        text.push_str(line.as_str())?;
    }
    Ok(())
}

/// Adds a section of data: its address, size and bytes; and a line for each label.
fn push_part(text: &mut String, alloc: Global, part: &Part) -> Result<(), OutOfMemory> {
    let (address, size) = (part.address, part.size);
    text.push_str(format!(in alloc; "data {address} {size} ")?.as_str())?;
    for c in part.bytes.as_slice() {
        text.push_str(format!(in alloc; "{c:02x}")?.as_str())?;
    }
    text.push('\n')?;
    for word in part.labels.as_slice() {
        let (offset, label) = (word.offset, word.label);
        text.push_str(format!(in alloc; "  {offset} {label:?}\n")?.as_str())?;
    }
    Ok(())
}

/// Adds a line for each section of code, with its size.
fn push_code(text: &mut String, alloc: Global, p: &Prog) -> Result<(), OutOfMemory> {
    for section in p.code.as_slice() {
        let size = section.size;
        text.push_str("code ")?;
        push_name(text, section.name.as_slice())?;
        text.push_str(format!(in alloc; " {size}\n")?.as_str())?;
    }
    Ok(())
}

/// Adds a line for each named area, with its address, and for each global symbol, with address and size.
fn push_symbols(text: &mut String, alloc: Global, p: &Prog) -> Result<(), OutOfMemory> {
    for ear in p.ears.as_slice() {
        let address = ear.address;
        text.push_str("area ")?;
        push_name(text, ear.name.as_slice())?;
        text.push_str(format!(in alloc; " {address}\n")?.as_str())?;
    }
    for global in p.globals.as_slice() {
        let (address, size) = (global.address, global.size);
        text.push_str("global ")?;
        push_name(text, global.name.as_slice())?;
        text.push_str(format!(in alloc; " {address} {size}\n")?.as_str())?;
    }
    Ok(())
}

/// All of a program.
pub fn listing(alloc: Global, p: &Prog) -> Result<String, OutOfMemory> {
    let mut text = String::new(alloc);
    for f in p.functions.as_slice() {
        push_function(&mut text, alloc, f)?;
    }
    text.push_str("taken")?;
    push_numbers(&mut text, alloc, p.taken.as_slice())?;
    push_code(&mut text, alloc, p)?;
    for part in p.parts.as_slice() {
        push_part(&mut text, alloc, part)?;
    }
    push_symbols(&mut text, alloc, p)?;
    let (entry, end) = (p.entry, p.data_end);
    text.push_str(format!(in alloc; "entry {entry}\nend {end}\n")?.as_str())?;
    Ok(text)
}

/// A fault: its kind, and its name or place.
pub fn told(alloc: Global, fault: &LiftFault) -> Result<String, OutOfMemory> {
    let mut text = String::new(alloc);
    match fault {
        LiftFault::NoEntry => text.push_str("NoEntry")?,
        LiftFault::Symbol { kind, name } => {
            text.push_str(format!(in alloc; "{kind:?} ")?.as_str())?;
            push_name(&mut text, name.as_slice())?;
        }
        LiftFault::Site {
            kind,
            object,
            section,
            offset,
        } => {
            text.push_str(format!(in alloc; "{kind:?} {object} ")?.as_str())?;
            push_name(&mut text, section.as_slice())?;
            text.push_str(format!(in alloc; " {offset}")?.as_str())?;
        }
        LiftFault::Word {
            kind,
            function,
            offset,
        } => {
            text.push_str(format!(in alloc; "{kind:?} ")?.as_str())?;
            push_name(&mut text, function.as_slice())?;
            text.push_str(format!(in alloc; " {offset}")?.as_str())?;
        }
        LiftFault::OutOfMemory => text.push_str("OutOfMemory")?,
    }
    Ok(text)
}
