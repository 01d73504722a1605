//! Objects with all that is looked up in them, and what a word of code or data stands for.

ghost use Rattle.std.specs.Prelude.{◌≡◌, ◌≤◌, ◌+◌, ◌*◌, ◌^◌, ◌<◌, ◌↔◌, ℤ, pos, length, true, false, not, ◌&&◌, IfSome, IfNone, IfOk, IsTrue, All};
ghost use Rattle.spu_isa.specs.Table.{row_of};
ghost use Rattle.spu_isa.specs.declared.operation.Kind.{Kind};
ghost use Rattle.spu_lift.specs.declared.functions.Place.{Place};
ghost use Rattle.spu_lift.specs.declared.program.Operand.{Operand};
ghost use Rattle.spu_lift.specs.declared.program.SymInst.{SymInst};
ghost use Rattle.spu_lift.specs.WellFormed.{is_direct, needs_operand, takes_label, takes_number};
ghost use Rattle.spu_lift.specs.Extents.{label_of};
ghost use Rattle.spu_lift.specs.Meanings.{field_of, is_hint, is_relative, meaning_of};
ghost use Rattle.spu_lift.specs.LiftFaults.{NamesCode};
ghost use Rattle.spu_lift.specs.Lifted.{operand_to, with_operand};
ghost use Rattle.spu_lift.specs.LookUps.{AreTables, IsWordOf};
ghost use Rattle.spu_word.specs.declared.limits.TheConstants.{MAX_OBJECTS};
ghost use Rattle.spu_elf.specs.WellFormed.{IsWellFormed};
ghost use Rattle.spu_isa.specs.declared.operation.Op.TheVariants as ops;
ghost use Rattle.spu_lift.specs.StartCode.{of_register};
ghost use Rattle.spu_lift.specs.FunctionTables.{HasPlaces, IsLiftedIn, IsLifting, symbol_name, IsOperandIn, IsPlaceFor, IsPlaceMeant, MayGoTo};

use crate::functions::{FunctionSymbol, FunctionSymbols, Functions, Place};
use crate::program::{Label, Operand, SymInst};
use crate::relocations::Spot;
use crate::tables::{Meaning, Tables, is_hint};
use spu_elf::{Object, Reloc};
use spu_isa::{Inst, Kind, Op, info};
use spu_reloc::{RelocKind, fits};
use spu_word::limits::WORD_SIZE;
use spu_word::{Name, OutOfMemory, Seq};
use std::alloc::Global;

/// Objects, their tables, and their functions.
#[derive(Drop)]
pub struct Lifting<'a> {
    pub tables: Tables<'a>,
    pub symbols: FunctionSymbols,
    pub functions: Functions,
}

/// The label of a place.
pub fn label_of(place: Place) -> Label
    ensures { result ≡ label_of place.function place.word }
{
    if place.word == 0 {
        Label::Fun(place.function)
    } else {
        Label::Place(place.function, place.word)
    }
}

/// Whether an operation is a direct branch or call.
pub fn is_direct(op: Op) -> bool
    ensures { result ≡ is_direct (row_of op).kind }
{
    match info(op).kind {
        Kind::Branch | Kind::Call => true,
        Kind::Compute
        | Kind::Load
        | Kind::Store
        | Kind::Indirect
        | Kind::PointerCall
        | Kind::HaltTest
        | Kind::ChannelOp
        | Kind::StopOp
        | Kind::Nothing => false,
    }
}

/// Whether an operation is a branch or call by a distance.
fn is_relative(op: Op) -> bool
    ensures { result ≡ is_relative op }
{
    is_direct(op) && fits(op, RelocKind::Rel16)
}

/// Whether an operation loads or stores at an address in its field.
pub fn is_addressed(op: Op) -> bool
    ensures { result ≡ (takes_number op && not (takes_label op)) }
{
    match op {
        Op::Lqa | Op::Stqa | Op::Lqr | Op::Stqr => true,
        _ => false,
    }
}

/// Whether an operation's field must stand for something else: that of a direct branch or call, and of a load or store relative
/// to its own place.
fn needs_operand(op: Op) -> bool
    ensures { result ≡ needs_operand op }
{
    match op {
        Op::Lqr | Op::Stqr => true,
        _ => is_direct(op),
    }
}

/// What a place of code is to an instruction of a function.
fn operand_to(kind: Kind, function: u32, place: Place) -> Operand
    ensures { result ≡ operand_to kind function place.function place.word }
{
    match kind {
        Kind::Call => Operand::Call(place.function),
        Kind::Branch => {
            if place.function == function {
                Operand::Branch(place.word)
            } else {
                Operand::Jump(place.function)
            }
        }
        Kind::Compute
        | Kind::Load
        | Kind::Store
        | Kind::Indirect
        | Kind::PointerCall
        | Kind::HaltTest
        | Kind::ChannelOp
        | Kind::StopOp
        | Kind::Nothing => Operand::Address(label_of(place)),
    }
}

/// The instruction with an operand, whose field is 0 where the operand stands for it.
fn with_operand(inst: Inst, operand: Operand) -> SymInst
    ensures { result ≡ with_operand inst operand }
{
    match operand {
        Operand::Plain => SymInst { inst, operand },
        Operand::Number(_)
        | Operand::Address(_)
        | Operand::Call(_)
        | Operand::Jump(_)
        | Operand::Branch(_) => SymInst {
            inst: Inst { imm: 0, ..inst },
            operand,
        },
    }
}

impl<'a> Lifting<'a> {
    /// The tables and the functions of these objects.
    pub fn of(alloc: Global, objects: &'a [Object]) -> Result<Lifting<'a>, OutOfMemory>
        requires few { length objects.now ≤ MAX_OBJECTS }
        requires formed { All IsWellFormed objects.now }
        ensures lifting { IfOk result (λ l. IsLifting l) }
        ensures objects { IfOk result (λ l. l.tables.objects.now ≡ objects.now) }
    {
        let symbols = FunctionSymbols::of(alloc, objects)?;
        let functions = symbols.functions(alloc)?;
        Ok(Lifting {
            tables: Tables::of(alloc, objects)?,
            symbols,
            functions,
        })
    }

    /// A function's name: that of its symbol.
    pub fn name(&self, alloc: Global, f: &FunctionSymbol) -> Result<Name, OutOfMemory>
        ensures { IfOk result (λ name. name ≡ symbol_name self.now.tables.objects.now f.now) }
    {
        match self.tables.objects.get(f.object as usize) {
            Some(o) => match o.symbols.get(f.symbol as usize) {
                Some(symbol) => Seq::copied(alloc, symbol.name.as_slice()),
                None => Ok(Seq::new(alloc)),
            },
            None => Ok(Seq::new(alloc)),
        }
    }

    /// The place at an offset of a section, None where it is in no function or no multiple of 4.
    fn place(&self, object: u32, section: u32, offset: i64) -> Option<Place>
        requires { HasPlaces self.now.functions.sorted.items }
        ensures some { IfSome result (IsPlaceFor self.now.functions.sorted.items object section offset) }
        ensures none { IfNone result ((p : Place) → IsPlaceFor self.now.functions.sorted.items object section offset p → ⊥) }
    {
        match u32::try_from(offset) {
            Ok(offset) => self.functions.place_at(Spot {
                object,
                section,
                offset,
            }),
            Err(_) => None,
        }
    }

    /// The place of code that is meant.
    pub fn place_meant(&self, meaning: Meaning) -> Option<Place>
        requires { HasPlaces self.now.functions.sorted.items }
        ensures some { IfSome result (IsPlaceMeant self.now.functions.sorted.items meaning) }
        ensures none { IfNone result ((p : Place) → IsPlaceMeant self.now.functions.sorted.items meaning p → ⊥) }
    {
        match meaning {
            Meaning::Code {
                object,
                section,
                offset,
            } => self.place(object, section, offset),
            Meaning::Number(_) | Meaning::Unknown => None,
        }
    }

    /// What stands for the field of an instruction, None where the field stands for itself.
    fn field(&self, spot: Spot, x: &Inst) -> Option<Meaning>
        requires { AreTables self.now.tables }
        ensures { result ≡ field_of self.now.tables.objects.now spot.object spot.section spot.offset x.now }
    {
        match self.tables.relocation(spot) {
            Some(r) => Some(self.tables.meaning(spot.object, r)),
            None => {
                if is_relative(x.op) {
                    Some(Meaning::Code {
                        object: spot.object,
                        section: spot.section,
                        offset: spot.offset as i64 + WORD_SIZE as i64 * x.imm as i64,
                    })
                } else {
                    None
                }
            }
        }
    }

    /// Whether a direct branch or call of a function may go where its field says: to the start of a function, and a branch also to
    /// a place of its own function.
    fn may_go(&self, kind: Kind, function: u32, field: Option<Meaning>) -> bool
        requires { HasPlaces self.now.functions.sorted.items }
        ensures { IsTrue result ↔ MayGoTo self.now.functions.sorted.items kind function field }
    {
        match field {
            Some(meaning) => match self.place_meant(meaning) {
                Some(place) => {
                    place.word == 0 || (kind == Kind::Branch && place.function == function)
                }
                None => false,
            },
            None => false,
        }
    }

    /// Whether a direct branch or call of a function goes to no place that it may go to.
    pub fn goes_astray(&self, function: u32, spot: Spot, x: &Inst) -> bool
        requires tables { AreTables self.now.tables }
        requires places { HasPlaces self.now.functions.sorted.items }
        ensures { IsTrue result ↔ ((is_direct (row_of x.now.op).kind ≡ true) × (MayGoTo self.now.functions.sorted.items (row_of x.now.op).kind function (field_of self.now.tables.objects.now spot.object spot.section spot.offset x.now) → ⊥)) }
    {
        is_direct(x.op) && !self.may_go(info(x.op).kind, function, self.field(spot, x))
    }

    /// Whether a load or store at an address in its field names code, or is relative to its own place and names nothing.
    pub fn reads_code(&self, spot: Spot, x: &Inst) -> bool
        requires { AreTables self.now.tables }
        ensures { IsTrue result ↔ (((takes_number x.now.op && not (takes_label x.now.op)) ≡ true) × NamesCode x.now.op (field_of self.now.tables.objects.now spot.object spot.section spot.offset x.now)) }
    {
        is_addressed(x.op)
            && match self.field(spot, x) {
                Some(Meaning::Code { .. }) => true,
                Some(Meaning::Number(_) | Meaning::Unknown) => false,
                None => needs_operand(x.op),
            }
    }

    /// What stands for the field of an instruction of a function, None where that is no number and no place of a function.
    fn operand(&self, function: u32, kind: Kind, field: Option<Meaning>) -> Option<Operand>
        requires { HasPlaces self.now.functions.sorted.items }
        ensures some { IfSome result (IsOperandIn self.now.functions.sorted.items function kind field) }
        ensures none { IfNone result ((o : Operand) → IsOperandIn self.now.functions.sorted.items function kind field o → ⊥) }
    {
        match field {
            None => Some(Operand::Plain),
            Some(Meaning::Number(n)) => Some(Operand::Number(n)),
            Some(
                Meaning::Code {
                    object,
                    section,
                    offset,
                },
            ) => match self.place(object, section, offset) {
                Some(place) => Some(operand_to(kind, function, place)),
                None => None,
            },
            Some(Meaning::Unknown) => None,
        }
    }

    /// The symbolic instruction of a word of a function, None where the word doesn't decode, or names what is in no function.
    pub fn lifted(&self, function: u32, spot: Spot) -> Option<SymInst>
        requires tables { AreTables self.now.tables }
        requires places { HasPlaces self.now.functions.sorted.items }
        ensures some { IfSome result (IsLiftedIn self.now.tables.objects.now self.now.functions.sorted.items function spot) }
        ensures none { IfNone result ((x : SymInst) → IsLiftedIn self.now.tables.objects.now self.now.functions.sorted.items function spot x → ⊥) }
    {
        let inst = self.tables.instruction(spot)?;
        if is_hint(inst.op) {
            return Some(SymInst {
                inst: lnop(),
                operand: Operand::Plain,
            });
        }
        let field = self.field(spot, &inst);
        let operand = self.operand(function, info(inst.op).kind, field)?;
        Some(with_operand(inst, operand))
    }
}

/// The instruction `lnop`.
fn lnop() -> Inst
    ensures { result ≡ of_register ops.Lnop 0 (pos 0) }
{
    Inst {
        op: Op::Lnop,
        rt: 0,
        ra: 0,
        rb: 0,
        rc: 0,
        imm: 0,
    }
}
