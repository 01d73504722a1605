//! The data of a program.

ghost use Rattle.std.specs.Prelude.{◌≡◌, ◌+◌, ◌^◌, ◌<◌, ◌≤◌, ◌++◌, length, None, Some, slice_get, if◌then◌else◌, IfOk, IfSome, OnOk};
ghost use Rattle.std.specs.List.{filter_map};
ghost use Rattle.std.specs.Option.{option_and_then, option_map};
ghost use Rattle.spu_word.specs.declared.limits.TheConstants.{WORD_SIZE};
ghost use Rattle.spu_lift.specs.Tables.{DataPlace, data_address, data_place, holds_data, section_at};
ghost use Rattle.spu_lift.specs.Lifted.{ear_of, global_of, of_symbols};
ghost use Rattle.spu_lift.specs.LookUps.{AreTables};
ghost use Rattle.spu_lift.specs.FunctionTables.{HasPlaces};
ghost use Rattle.spu_lift.specs.Built.{AddsLabel, ArePartsBuilt, IsPartBuilt, filled};

use crate::alignment_checks::{EAR_PREFIX, data_section, is_ear};
use crate::lifting::{Lifting, label_of};
use crate::program::{Ear, Global_, Part, WordLabel};
use crate::relocations::Spot;
use crate::sections::Placing;
use crate::tables::Meaning;
use spu_elf::{Object, Section, SymPlace, Symbol};
use spu_word::limits::WORD_SIZE;
use spu_word::{Bytes, OutOfMemory, Seq};
use std::alloc::Global;

impl Lifting<'_> {
    /// Puts what stands in a word of data into its bytes, and its label, where it has one, behind the others.
    fn fill_word(
        &self,
        spot: Spot,
        bytes: &mut Bytes,
        labels: &mut Seq<WordLabel>,
    ) -> Result<(), OutOfMemory>
        requires tables { AreTables self.now.tables }
        requires places { HasPlaces self.now.functions.sorted.items }
        requires inside { spot.offset + WORD_SIZE ≤ length bytes.old }
        ensures bytes { bytes.new ≡ filled self.now.tables.objects.now spot bytes.old }
        ensures labels { OnOk result (AddsLabel self.now.tables.objects.now self.now.functions.sorted.items spot labels.old labels.new) }
    {
        let r = match self.tables.relocation(spot) {
            Some(r) => r,
            None => return Ok(()),
        };
        let meaning = self.tables.meaning(spot.object, r);
        match meaning {
            Meaning::Number(n) => bytes.overwrite(spot.offset as usize, &n.to_be_bytes()),
            Meaning::Code { .. } | Meaning::Unknown => {
                bytes.overwrite(spot.offset as usize, &[0; 4])
            }
        }
        match self.place_meant(meaning) {
            Some(place) => labels.push(WordLabel {
                offset: spot.offset,
                label: label_of(place),
            }),
            None => Ok(()),
        }
    }

    /// A section of data at its address.
    fn part(
        &self,
        alloc: Global,
        object: u32,
        section: u32,
        s: &Section,
        address: u64,
    ) -> Result<Part, OutOfMemory>
        requires tables { AreTables self.now.tables }
        requires places { HasPlaces self.now.functions.sorted.items }
        requires small { length s.now.bytes < 2 ^ 32 }
        ensures { IfOk result (IsPartBuilt self.now.tables.objects.now self.now.functions.sorted.items object section s.now address) }
    {
        let mut bytes = Seq::copied(alloc, s.bytes.as_slice())?;
        let mut labels = Seq::new(alloc);
        for word in 0..s.bytes.len() as u32 / WORD_SIZE {
            let spot = Spot {
                object,
                section,
                offset: WORD_SIZE * word,
            };
            self.fill_word(spot, &mut bytes, &mut labels)?;
        }
        Ok(Part {
            address,
            size: s.size,
            bytes,
            labels,
        })
    }

    /// Adds the sections of data of an object.
    fn push_parts(
        &self,
        alloc: Global,
        parts: &mut Seq<Part>,
        object: u32,
        o: &Object,
    ) -> Result<(), OutOfMemory>
        requires tables { AreTables self.now.tables }
        requires places { HasPlaces self.now.functions.sorted.items }
        requires there { slice_get self.now.tables.objects.now object ≡ Some o.now }
        requires before { ArePartsBuilt self.now.tables.objects.now self.now.functions.sorted.items object 0 parts.old }
        ensures { OnOk result (ArePartsBuilt self.now.tables.objects.now self.now.functions.sorted.items object (length o.now.sections) parts.new) }
    {
        for (section, s) in o.sections.as_slice().iter().enumerate() {
            if let Some(address) = self.data_start(object, section as u32) {
                parts.push(self.part(alloc, object, section as u32, s, address)?)?;
            }
        }
        Ok(())
    }

    /// The sections of data, in order of objects and sections.
    pub fn parts(&self, alloc: Global) -> Result<Seq<Part>, OutOfMemory>
        requires tables { AreTables self.now.tables }
        requires places { HasPlaces self.now.functions.sorted.items }
        ensures { IfOk result (ArePartsBuilt self.now.tables.objects.now self.now.functions.sorted.items (length self.now.tables.objects.now) 0) }
    {
        let mut parts = Seq::new(alloc);
        for (object, o) in self.tables.objects.iter().enumerate() {
            self.push_parts(alloc, &mut parts, object as u32, o)?;
        }
        Ok(parts)
    }

    /// Where a section of data begins, None where it holds code.
    fn data_start(&self, object: u32, section: u32) -> Option<u64>
        requires { AreTables self.now.tables }
        ensures start { result ≡ option_and_then (λ t. if holds_data t then Some (data_address self.now.tables.objects.now object section t) else None) (section_at self.now.tables.objects.now object section) }
        ensures low { IfSome result (λ at. at ≤ 2 ^ 60) }
    {
        match self.tables.sections.placing(object, section) {
            Some(Placing::Data(address)) => Some(address),
            Some(Placing::Code(_) | Placing::Dropped) | None => None,
        }
    }

    /// The address of a symbol inside a section of data.
    fn data_address(&self, object: u32, symbol: &Symbol) -> Option<u64>
        requires { AreTables self.now.tables }
        ensures { result ≡ option_map (λ (d : DataPlace). d.address) (data_place self.now.tables.objects.now object symbol.now) }
    {
        match symbol.place {
            SymPlace::Undefined | SymPlace::Absolute => None,
            SymPlace::Inside(section) => {
                let start = self.data_start(object, section)?;
                Some(start + symbol.value as u64)
            }
        }
    }

    /// A global symbol inside a section of data, None for any other symbol.
    fn global(
        &self,
        alloc: Global,
        object: u32,
        symbol: &Symbol,
    ) -> Result<Option<Global_>, OutOfMemory>
        requires { AreTables self.now.tables }
        ensures { IfOk result (λ g. g ≡ global_of self.now.tables.objects.now object symbol.now) }
    {
        if !symbol.global {
            return Ok(None);
        }
        match self.data_address(object, symbol) {
            Some(address) => Ok(Some(Global_ {
                name: Seq::copied(alloc, symbol.name.as_slice())?,
                address,
                size: symbol.size,
            })),
            None => Ok(None),
        }
    }

    /// Adds the global symbols of an object inside sections of data.
    fn push_globals(
        &self,
        alloc: Global,
        globals: &mut Seq<Global_>,
        object: u32,
        symbols: &[Symbol],
    ) -> Result<(), OutOfMemory>
        requires { AreTables self.now.tables }
        ensures { OnOk result (globals.new ≡ globals.old ++ filter_map (global_of self.now.tables.objects.now object) symbols.now) }
    {
        for symbol in symbols {
            if let Some(global) = self.global(alloc, object, symbol)? {
                globals.push(global)?;
            }
        }
        Ok(())
    }

    /// The global symbols inside sections of data, in order of objects and symbols.
    pub fn globals(&self, alloc: Global) -> Result<Seq<Global_>, OutOfMemory>
        requires { AreTables self.now.tables }
        ensures { IfOk result (λ globals. globals ≡ of_symbols (global_of self.now.tables.objects.now) self.now.tables.objects.now) }
    {
        let mut globals = Seq::new(alloc);
        for (object, o) in self.tables.objects.iter().enumerate() {
            self.push_globals(alloc, &mut globals, object as u32, o.symbols.as_slice())?;
        }
        Ok(globals)
    }

    /// The quadword of a named area, None for any other symbol of an object.
    fn ear(
        &self,
        alloc: Global,
        object: u32,
        o: &Object,
        symbol: &Symbol,
    ) -> Result<Option<Ear>, OutOfMemory>
        requires tables { AreTables self.now.tables }
        requires there { slice_get self.now.tables.objects.now object ≡ Some o.now }
        ensures { IfOk result (λ e. e ≡ ear_of self.now.tables.objects.now object symbol.now) }
    {
        if !is_ear(o.sections.as_slice(), symbol) {
            return Ok(None);
        }
        match self.data_address(object, symbol) {
            Some(address) => Ok(Some(Ear {
                name: Seq::copied(alloc, &symbol.name.as_slice()[EAR_PREFIX.len()..])?,
                address,
            })),
            None => Ok(None),
        }
    }

    /// Adds the quadwords of named areas in an object.
    fn push_ears(
        &self,
        alloc: Global,
        ears: &mut Seq<Ear>,
        object: u32,
        o: &Object,
    ) -> Result<(), OutOfMemory>
        requires tables { AreTables self.now.tables }
        requires there { slice_get self.now.tables.objects.now object ≡ Some o.now }
        ensures { OnOk result (ears.new ≡ ears.old ++ filter_map (ear_of self.now.tables.objects.now object) o.now.symbols) }
    {
        for symbol in o.symbols.as_slice() {
            if let Some(ear) = self.ear(alloc, object, o, symbol)? {
                ears.push(ear)?;
            }
        }
        Ok(())
    }

    /// The quadwords of named areas, in order of objects and symbols.
    pub fn ears(&self, alloc: Global) -> Result<Seq<Ear>, OutOfMemory>
        requires { AreTables self.now.tables }
        ensures { IfOk result (λ ears. ears ≡ of_symbols (ear_of self.now.tables.objects.now) self.now.tables.objects.now) }
    {
        let mut ears = Seq::new(alloc);
        for (object, o) in self.tables.objects.iter().enumerate() {
            self.push_ears(alloc, &mut ears, object as u32, o)?;
        }
        Ok(ears)
    }
}
