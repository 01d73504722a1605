//! The symbols of an image.

ghost use Rattle.std.specs.Prelude.{◌≡◌, ◌≢◌, ◌^◌, ◌<◌, ◌≤◌, ◌↔◌, ◌++◌, ◌∷◌, [], codes, drop, map, slice_get, IsTrue, IfOk, OnOk, Some};
ghost use Rattle.spu_word.specs.declared.limits.TheConstants.{STORE_SIZE};
ghost use Rattle.spu_lift.specs.WellFormed.{IsWellFormed};
ghost use Rattle.spu_layout.specs.Views.{layout_in};
ghost use Rattle.spu_image.specs.Images.{data_symbol, function_symbol, function_symbols, kind_of_data, stack_name, stack_symbol_by, stack_symbols, symbols_of};
ghost use Rattle.spu_image.specs.Overlays.{image_symbol, overlay_symbols};
ghost use Rattle.spu_image.specs.Filling.{IsLaidOut, has_first, is_of, symbol_as, told_in, without_first};

use spu_elf::{SymKind, SymPlace, Symbol, is_same};
use spu_layout::Layout;
use spu_lift::{Ear, Function, Global_, Prog};
use spu_word::limits::{MAX_NAME_SIZE, QUAD_SIZE, WORD_SIZE};
use spu_word::{Name, OutOfMemory, Seq};
use std::alloc::Global;

/// The symbol of function f.
fn function_symbol(
    alloc: Global,
    p: &Prog,
    layout: &Layout,
    f: u32,
    g: &Function,
) -> Result<Symbol, OutOfMemory>
    requires laid { IsLaidOut p.now layout.now }
    requires there { slice_get p.now.functions f ≡ Some g.now }
    requires other { f ≢ 0 }
    ensures { IfOk result (λ s. s ≡ function_symbol (layout_in layout.now) f g.now) }
{
    Ok(Symbol {
        name: Seq::copied(alloc, g.name.as_slice())?,
        value: layout.address(f, 0),
        size: WORD_SIZE * g.code.len() as u32,
        kind: SymKind::Function,
        global: g.global,
        place: SymPlace::Inside(layout.region(f)),
    })
}

/// Adds the symbol of function f, if it is global or if it isn't, as is asked.
fn put_symbol(
    alloc: Global,
    symbols: &mut Seq<Symbol>,
    p: &Prog,
    layout: &Layout,
    f: u32,
    g: &Function,
    global: bool,
) -> Result<(), OutOfMemory>
    requires laid { IsLaidOut p.now layout.now }
    requires there { slice_get p.now.functions f ≡ Some g.now }
    requires other { f ≢ 0 }
    ensures { OnOk result (symbols.new ≡ symbols.old ++ function_symbols (layout_in layout.now) (is_of global) f (g.now ∷ [])) }
{
    if g.global == global {
        symbols.push(function_symbol(alloc, p, layout, f, g)?)?;
    }
    Ok(())
}

/// Adds the symbols of the functions, but for the start code, that are global, or of those that aren't.
fn put_symbols(
    alloc: Global,
    symbols: &mut Seq<Symbol>,
    p: &Prog,
    layout: &Layout,
    global: bool,
) -> Result<(), OutOfMemory>
    requires { IsLaidOut p.now layout.now }
    ensures { OnOk result (symbols.new ≡ symbols.old ++ function_symbols (layout_in layout.now) (is_of global) 1 (drop 1 p.now.functions)) }
{
    let others = &p.functions.as_slice()[1..];
    for (f, g) in others.iter().enumerate() {
        put_symbol(alloc, symbols, p, layout, f as u32 + 1, g, global)?;
    }
    Ok(())
}

/// Whether a global symbol of data is that of a named area: it has the area's name behind `_EAR_`.
fn is_symbol_of(g: &Global_, ear: &Ear) -> bool
    ensures { IsTrue result ↔ (g.now.name ≡ codes "_EAR_" ++ ear.now.name) }
{
    match g.name.as_slice() {
        [b'_', b'E', b'A', b'R', b'_', name @ ..] => is_same(name, ear.name.as_slice()),
        _ => false,
    }
}

/// Whether a global symbol of data is that of the first of these named areas.
fn has_first(ears: &[Ear], g: &Global_) -> bool
    ensures { result ≡ has_first ears.now g.now }
{
    match ears {
        [ear, ..] => is_symbol_of(g, ear),
        [] => false,
    }
}

/// These named areas, without the first one if its symbol is written.
fn without_first(ears: &[Ear], is_written: bool) -> &[Ear]
    ensures { result.now ≡ without_first ears.now is_written }
{
    match ears {
        [_, others @ ..] => if is_written { others } else { ears },
        [] => ears,
    }
}

/// The kind of a global symbol of data, which is that of a named area or isn't.
fn data_kind(g: &Global_, is_ear: bool) -> SymKind
    ensures { result ≡ kind_of_data g.now.name is_ear }
{
    if g.name.as_slice().starts_with(b"_EAR_") {
        if is_ear {
            SymKind::Object
        } else {
            SymKind::Plain
        }
    } else {
        SymKind::Object
    }
}

/// The symbol of this kind of a global symbol of data.
fn data_symbol(alloc: Global, g: &Global_, kind: SymKind) -> Result<Symbol, OutOfMemory>
    requires { g.now.address < 2 ^ 32 }
    ensures { IfOk result (λ s. s ≡ symbol_as kind g.now) }
{
    Ok(Symbol {
        name: Seq::copied(alloc, g.name.as_slice())?,
        value: g.address as u32,
        size: g.size,
        kind,
        global: true,
        place: SymPlace::Inside(0),
    })
}

/// Adds the global symbols of data. Those of named areas come in the order of the areas.
fn put_data_symbols(alloc: Global, symbols: &mut Seq<Symbol>, p: &Prog) -> Result<(), OutOfMemory>
    requires formed { IsWellFormed p.now }
    requires low { p.now.data_end ≤ STORE_SIZE }
    ensures { OnOk result (symbols.new ≡ symbols.old ++ map (data_symbol p.now) p.now.globals) }
{
    let mut ears = p.ears.as_slice();
    for g in p.globals.as_slice() {
        let is_ear = has_first(ears, g);
        symbols.push(data_symbol(alloc, g, data_kind(g, is_ear))?)?;
        ears = without_first(ears, is_ear);
    }
    Ok(())
}

/// The name of the stack symbol of function f.
fn stack_name(alloc: Global, f: u32, g: &Function) -> Result<Name, OutOfMemory>
    ensures { IfOk result (λ name. name ≡ stack_name f g.now) }
{
    let mut name = Seq::copied(alloc, b"__stack_")?;
    if !g.global {
        name.extend(format!(in alloc; "{f:x}_")?.as_bytes())?;
    }
    name.extend(g.name.as_slice())?;
    Ok(name)
}

/// Adds the stack symbol of function f, if its need is told and its name isn't too long.
fn put_stack_symbol(
    alloc: Global,
    symbols: &mut Seq<Symbol>,
    f: u32,
    g: &Function,
    need: Option<u32>,
) -> Result<(), OutOfMemory>
    ensures { OnOk result (symbols.new ≡ symbols.old ++ stack_symbol_by (stack_name f g.now) need) }
{
    if let Some(value) = need {
        let name = stack_name(alloc, f, g)?;
        if name.len() <= MAX_NAME_SIZE as usize {
            symbols.push(Symbol {
                name,
                value,
                size: 0,
                kind: SymKind::Plain,
                global: false,
                place: SymPlace::Absolute,
            })?;
        }
    }
    Ok(())
}

/// What is told of the need of function f.
fn told_need(told: &[Option<u32>], f: usize) -> Option<u32>
    ensures { result ≡ told_in told.now f }
{
    match told.get(f) {
        Some(need) => *need,
        None => None,
    }
}

/// Adds the stack symbols of the functions whose needs are told.
fn put_stack_symbols(
    alloc: Global,
    symbols: &mut Seq<Symbol>,
    p: &Prog,
    told: &[Option<u32>],
) -> Result<(), OutOfMemory>
    requires { IsWellFormed p.now }
    ensures { OnOk result (symbols.new ≡ symbols.old ++ stack_symbols (told_in told.now) 1 (drop 1 p.now.functions)) }
{
    let others = &p.functions.as_slice()[1..];
    for (f, g) in others.iter().enumerate() {
        put_stack_symbol(alloc, symbols, f as u32 + 1, g, told_need(told, f + 1))?;
    }
    Ok(())
}

/// The symbols of a program, with stack symbols of the functions whose needs are told.
pub fn image_symbols(
    alloc: Global,
    p: &Prog,
    layout: &Layout,
    told: &[Option<u32>],
) -> Result<Seq<Symbol>, OutOfMemory>
    requires { IsLaidOut p.now layout.now }
    ensures { IfOk result (λ s. s ≡ symbols_of p.now (layout_in layout.now) (told_in told.now)) }
{
    let mut symbols = Seq::new(alloc);
    put_symbols(alloc, &mut symbols, p, layout, false)?;
    put_stack_symbols(alloc, &mut symbols, p, told)?;
    put_symbols(alloc, &mut symbols, p, layout, true)?;
    put_data_symbols(alloc, &mut symbols, p)?;
    Ok(symbols)
}

/// The symbol of the quadword in which the loader finds the address of the file.
fn image_symbol(alloc: Global, at: u32) -> Result<Symbol, OutOfMemory>
    ensures { IfOk result (λ s. s ≡ image_symbol at) }
{
    Ok(Symbol {
        name: Seq::copied(alloc, b"__image_ea")?,
        value: at,
        size: QUAD_SIZE,
        kind: SymKind::Object,
        global: true,
        place: SymPlace::Inside(0),
    })
}

/// The symbols of a program with overlays, with stack symbols of the functions whose needs are told, and with that of the quadword
/// in which the loader finds the address of the file.
pub fn overlay_symbols(
    alloc: Global,
    p: &Prog,
    layout: &Layout,
    told: &[Option<u32>],
    at: u32,
) -> Result<Seq<Symbol>, OutOfMemory>
    requires { IsLaidOut p.now layout.now }
    ensures { IfOk result (λ s. s ≡ overlay_symbols p.now (layout_in layout.now) at (told_in told.now)) }
{
    let mut symbols = Seq::new(alloc);
    put_symbols(alloc, &mut symbols, p, layout, false)?;
    put_stack_symbols(alloc, &mut symbols, p, told)?;
    symbols.push(image_symbol(alloc, at)?)?;
    put_symbols(alloc, &mut symbols, p, layout, true)?;
    put_data_symbols(alloc, &mut symbols, p)?;
    Ok(symbols)
}
