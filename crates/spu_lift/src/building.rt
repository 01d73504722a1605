//! The program of objects that have no fault.

ghost use Rattle.std.specs.Prelude.{◌≡◌, ◌/◌, ℕ, List, ◌++◌, length, map, filter, true, Some, IfOk, OnOk};
ghost use Rattle.spu_word.specs.declared.limits.TheConstants.{WORD_SIZE};
ghost use Rattle.spu_elf.specs.declared.objects.Section.{Section};
ghost use Rattle.spu_lift.specs.declared.fault.LiftKind.{LiftKind};
ghost use Rattle.spu_lift.specs.declared.functions.Place.{Place};
ghost use Rattle.spu_lift.specs.Tables.{all_sections, code_number, data_end_of, holds_code, section_at};
ghost use Rattle.spu_lift.specs.Lifted.{IsProgramOf};
ghost use Rattle.spu_lift.specs.LiftFaults.{IsAbsent};
ghost use Rattle.spu_lift.specs.LookUps.{AreTables};
ghost use Rattle.spu_lift.specs.FunctionTables.{HasPlaces, IsLifting, IsPlaceIn};
ghost use Rattle.spu_lift.specs.Checks.{IsEntryAt};
ghost use Rattle.spu_lift.specs.TakenPlaces.{takes};
ghost use Rattle.spu_lift.specs.Built.{AreFunctionsBuilt, AreInstructions, AreReady, IsFunctionBuilt, IsReady, code_section};

use crate::functions::FunctionSymbol;
use crate::lifting::Lifting;
use crate::program::{CodeSection, Function, Prog, SymInst};
use crate::relocations::Spot;
use crate::sections::Placing;
use crate::start::start_code;
use crate::taken::Taken;
use spu_elf::{SecKind, Section};
use spu_word::{OutOfMemory, Seq};
use std::alloc::Global;

/// Whether a section is one of code that isn't dropped.
fn holds_code(section: &Section) -> bool
    ensures { result ≡ holds_code section.now }
{
    section.kind == SecKind::Code && section.size != 0
}

/// Adds the sections of code among these.
fn push_code(
    alloc: Global,
    code: &mut Seq<CodeSection>,
    sections: &[Section],
) -> Result<(), OutOfMemory>
    ensures { OnOk result (code.new ≡ code.old ++ map code_section (filter holds_code sections.now)) }
{
    for section in sections {
        if holds_code(section) {
            code.push(CodeSection {
                name: Seq::copied(alloc, section.name.as_slice())?,
                size: section.size,
            })?;
        }
    }
    Ok(())
}

impl Lifting<'_> {
    /// The instructions of a function.
    fn instructions(
        &self,
        alloc: Global,
        function: u32,
        f: &FunctionSymbol,
    ) -> Result<Seq<SymInst>, OutOfMemory>
        requires tables { AreTables self.now.tables }
        requires places { HasPlaces self.now.functions.sorted.items }
        requires ready { IsReady self.now.tables.objects.now self.now.functions.sorted.items function f.now }
        ensures { IfOk result (AreInstructions self.now.tables.objects.now self.now.functions.sorted.items function f.now (f.now.size / WORD_SIZE)) }
    {
        let mut code = Seq::new(alloc);
        for word in 0..f.word_count() {
            if let Some(x) = self.lifted(function, f.spot(word)) {
                code.push(x)?;
            }
        }
        Ok(code)
    }

    /// The number of a section of code.
    fn code_number(&self, object: u32, section: u32) -> u32
        requires { AreTables self.now.tables }
        ensures { (t : Section) → section_at self.now.tables.objects.now object section ≡ Some t → holds_code t ≡ true → result ≡ code_number self.now.tables.objects.now object section }
    {
        match self.tables.sections.placing(object, section) {
            Some(Placing::Code(number)) => number,
            Some(Placing::Data(_) | Placing::Dropped) | None => 0,
        }
    }

    /// A function.
    fn function(
        &self,
        alloc: Global,
        taken: &Taken,
        number: u32,
        f: &FunctionSymbol,
    ) -> Result<Function, OutOfMemory>
        requires tables { AreTables self.now.tables }
        requires places { HasPlaces self.now.functions.sorted.items }
        requires ready { IsReady self.now.tables.objects.now self.now.functions.sorted.items number f.now }
        ensures { IfOk result (IsFunctionBuilt self.now.tables.objects.now self.now.functions.sorted.items (takes taken.now) number f.now) }
    {
        Ok(Function {
            name: self.name(alloc, f)?,
            global: !f.local,
            section: self.code_number(f.object, f.section),
            offset: f.offset,
            code: self.instructions(alloc, number, f)?,
            taken: taken.words(alloc, number, f.word_count())?,
        })
    }

    /// The start code and the functions.
    fn all_functions(
        &self,
        alloc: Global,
        taken: &Taken,
        entry: u32,
    ) -> Result<Seq<Function>, OutOfMemory>
        requires tables { AreTables self.now.tables }
        requires places { HasPlaces self.now.functions.sorted.items }
        requires ready { AreReady self.now.tables.objects.now self.now.functions.sorted.items }
        ensures { IfOk result (AreFunctionsBuilt self.now.tables.objects.now self.now.functions.sorted.items (takes taken.now) (data_end_of self.now.tables.objects.now) entry (length self.now.functions.sorted.items)) }
    {
        let data_end = (self.tables.sections.data_end() & 0xffff_ffff) as u32;
        let mut functions = Seq::new(alloc);
        functions.push(start_code(alloc, data_end, entry)?)?;
        for (index, f) in self.functions.as_slice().iter().enumerate() {
            functions.push(self.function(alloc, taken, index as u32 + 1, f)?)?;
        }
        Ok(functions)
    }

    /// The sections of code, in order of their numbers.
    fn code(&self, alloc: Global) -> Result<Seq<CodeSection>, OutOfMemory>
        ensures { IfOk result (λ code. code ≡ map code_section (filter holds_code (all_sections self.now.tables.objects.now))) }
    {
        let mut code = Seq::new(alloc);
        for o in self.tables.objects {
            push_code(alloc, &mut code, o.sections.as_slice())?;
        }
        Ok(code)
    }

    /// The number of the function at a place.
    fn function_at(&self, spot: Spot) -> u32
        requires { HasPlaces self.now.functions.sorted.items }
        ensures { (p : Place) → IsPlaceIn self.now.functions.sorted.items spot p → (w : ℕ) × IsPlaceIn self.now.functions.sorted.items spot (record { function = result; word = w }) }
    {
        match self.functions.place_at(spot) {
            Some(place) => place.function,
            None => 0,
        }
    }

    /// The program, whose entry function begins at a place.
    pub fn program(&self, alloc: Global, entry: Spot) -> Result<Prog, OutOfMemory>
        requires lifting { IsLifting self.now }
        requires places { HasPlaces self.now.functions.sorted.items }
        requires ready { AreReady self.now.tables.objects.now self.now.functions.sorted.items }
        ensures { (name : List ℕ) → ((kind : LiftKind) → IsAbsent kind self.now.tables.objects.now name) → IsEntryAt self.now.tables.objects.now name entry → IfOk result (IsProgramOf self.now.tables.objects.now name) }
    {
        let taken = Taken::of(alloc, self)?;
        let entry = self.function_at(entry);
        Ok(Prog {
            functions: self.all_functions(alloc, &taken, entry)?,
            code: self.code(alloc)?,
            parts: self.parts(alloc)?,
            taken: taken.functions(alloc, self.functions.as_slice().len() as u32)?,
            entry,
            ears: self.ears(alloc)?,
            globals: self.globals(alloc)?,
            data_end: self.tables.sections.data_end(),
        })
    }
}
