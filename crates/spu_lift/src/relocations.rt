//! Relocations by their places.

ghost use Rattle.std.specs.Prelude.{◌≡◌, ◌≤◌, ℕ, length, if◌then◌else◌, Some, None, OnOk, IfOk};
ghost use Rattle.std.specs.Option.{option_or};
ghost use Rattle.spu_word.specs.declared.limits.TheConstants.{MAX_OBJECTS};
ghost use Rattle.spu_lift.specs.declared.relocations.Spot.{Spot};
ghost use Rattle.spu_lift.specs.LookUps.{first_of, noted, same_spot, Notes};

use indexmap::IndexMap;
use spu_elf::{Object, Reloc};
use spu_word::OutOfMemory;
use std::alloc::Global;

/// A place in a section of an object.
#[derive(Clone, Copy, PartialEq, Eq, Hash, Debug)]
pub struct Spot {
    pub object: u32,
    pub section: u32,
    pub offset: u32,
}

/// The first relocation at each place, by its index in its object.
#[derive(Drop)]
pub struct Relocations {
    pub(crate) by_spot: IndexMap<Spot, usize>,
}

impl Relocations {
    /// Of no object.
    fn new(alloc: Global) -> Relocations
        ensures { (q : Spot) → noted result q ≡ None }
    {
        Relocations {
            by_spot: IndexMap::new(alloc),
        }
    }

    /// The relocations of these objects.
    pub fn of(alloc: Global, objects: &[Object]) -> Result<Relocations, OutOfMemory>
        requires { length objects.now ≤ MAX_OBJECTS }
        ensures { IfOk result (Notes objects.now) }
    {
        let mut relocations = Relocations::new(alloc);
        for (object, o) in objects.iter().enumerate() {
            relocations.note_all(object as u32, o.relocs.as_slice())?;
        }
        Ok(relocations)
    }

    /// Takes in the relocations of an object.
    fn note_all(&mut self, object: u32, relocs: &[Reloc]) -> Result<(), OutOfMemory>
        ensures { OnOk result ((q : Spot) → noted self.new q ≡ option_or (noted self.old q) (first_of object relocs.now q)) }
    {
        for (index, r) in relocs.iter().enumerate() {
            let spot = Spot {
                object,
                section: r.section,
                offset: r.offset,
            };
            self.note(spot, index)?;
        }
        Ok(())
    }

    /// Takes in a relocation, unless its place has one.
    fn note(&mut self, spot: Spot, index: usize) -> Result<(), OutOfMemory>
        ensures { OnOk result ((q : Spot) → noted self.new q ≡ option_or (noted self.old q) (if same_spot spot q then Some index else None)) }
    {
        match self.first_at(spot) {
            Some(_) => {}
            None => {
                self.by_spot.insert(spot, index)?;
            }
        }
        Ok(())
    }

    /// The index of the first relocation at a place.
    pub fn first_at(&self, spot: Spot) -> Option<usize>
        ensures { result ≡ noted self.now spot }
    {
        self.by_spot.get(&spot).copied()
    }
}
