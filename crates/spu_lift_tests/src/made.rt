//! Objects that a text says. Objects are parted by `/`, and each has rows, parted by `;`, of words:
//!
//! - `code NAME ALIGN WORD..`, `const ..`, `vars ..`: a section of these words, in hexadecimal; `zero NAME ALIGN SIZE`;
//! - `local NAME KIND PLACE VALUE SIZE`, `global ..`: a symbol, whose kind is `function`, `object`, `section` (without a name,
//!   whatever stands there) or another word, and whose place is `absolute`, `undefined` or the number of its section;
//! - `reloc SECTION OFFSET SYMBOL TYPE ADDEND`.

ghost use Rattle.std.specs.Prelude.{◌≤◌, All, length, IfOk};
ghost use Rattle.spu_word.specs.declared.limits.TheConstants.{MAX_OBJECTS};
ghost use Rattle.spu_elf.specs.WellFormed.{IsWellFormed};

use spu_elf::{Object, Reloc, SecKind, Section, SymKind, SymPlace, Symbol};
use spu_word::limits::MAX_OBJECTS;
use spu_word::{Bytes, Name, OutOfMemory, Seq};
use std::alloc::Global;

/// The words of a row.
#[derive(Drop)]
struct Row {
    words: Seq<Bytes>,
}

/// The value of a digit, 0 of any other byte.
fn digit(c: u8) -> u32 {
    match c {
        b'0'..=b'9' => (c - b'0') as u32,
        b'a'..=b'f' => (c - b'a' + 10) as u32,
        _ => 0,
    }
}

/// The number of these digits.
fn value(digits: &[u8], base: u32) -> u32 {
    let mut value: u32 = 0;
    for c in digits {
        value = value.wrapping_mul(base).wrapping_add(digit(*c));
    }
    value
}

/// The row of a text.
fn row_of(alloc: Global, text: &[u8]) -> Result<Row, OutOfMemory> {
    let mut words = Seq::new(alloc);
    for word in text.split(|c| *c == b' ') {
        if !word.is_empty() {
            words.push(Seq::copied(alloc, word)?)?;
        }
    }
    Ok(Row { words })
}

impl Row {
    /// Whether a word is this.
    fn is(&self, i: usize, wanted: &[u8]) -> bool {
        match self.words.get(i) {
            Some(word) => word.as_slice() == wanted,
            None => false,
        }
    }

    fn name(&self, alloc: Global, i: usize) -> Result<Name, OutOfMemory> {
        match self.words.get(i) {
            Some(word) => Seq::copied(alloc, word.as_slice()),
            None => Ok(Seq::new(alloc)),
        }
    }

    fn number(&self, i: usize) -> u32 {
        match self.words.get(i) {
            Some(word) => value(word.as_slice(), 10),
            None => 0,
        }
    }

    /// A number that may have a sign.
    fn addend(&self, i: usize) -> i32 {
        let size = (self.number(i) % 0x1_0000) as i32;
        match self.words.get(i) {
            Some(word) => if word.as_slice().starts_with(b"-") {
                -size
            } else {
                size
            },
            None => 0,
        }
    }

    /// The kind of the row's section, None where it is of something else.
    fn section_kind(&self) -> Option<SecKind> {
        if self.is(0, b"code") {
            Some(SecKind::Code)
        } else if self.is(0, b"const") {
            Some(SecKind::Const)
        } else if self.is(0, b"vars") {
            Some(SecKind::Vars)
        } else if self.is(0, b"zero") {
            Some(SecKind::Zero)
        } else {
            None
        }
    }

    fn section(&self, alloc: Global, kind: SecKind) -> Result<Section, OutOfMemory> {
        let mut bytes = Seq::new(alloc);
        let mut size = self.number(3);
        if kind != SecKind::Zero {
            for (i, word) in self.words.as_slice().iter().enumerate() {
                if i >= 3 {
                    bytes.extend(&value(word.as_slice(), 16).to_be_bytes())?;
                }
            }
            size = (bytes.len() % 0x1_0000) as u32;
        }
        Ok(Section {
            name: self.name(alloc, 1)?,
            kind,
            align: self.number(2),
            size,
            bytes,
        })
    }

    fn symbol(&self, alloc: Global, global: bool) -> Result<Symbol, OutOfMemory> {
        let kind = if self.is(2, b"function") {
            SymKind::Function
        } else if self.is(2, b"object") {
            SymKind::Object
        } else if self.is(2, b"section") {
            SymKind::Section
        } else {
            SymKind::Plain
        };
        let place = if self.is(3, b"absolute") {
            SymPlace::Absolute
        } else if self.is(3, b"undefined") {
            SymPlace::Undefined
        } else {
            SymPlace::Inside(self.number(3))
        };
        let name = if kind == SymKind::Section {
            Seq::new(alloc)
        } else {
            self.name(alloc, 1)?
        };
        Ok(Symbol {
            name,
            value: self.number(4),
            size: self.number(5),
            kind,
            global,
            place,
        })
    }

    fn reloc(&self) -> Reloc {
        Reloc {
            section: self.number(1),
            offset: self.number(2),
            symbol: self.number(3),
            kind: self.number(4),
            addend: self.addend(5),
        }
    }
}

/// Adds what a row says.
fn add(alloc: Global, o: &mut Object, row: &Row) -> Result<(), OutOfMemory> {
    if let Some(kind) = row.section_kind() {
        o.sections.push(row.section(alloc, kind)?)?;
    } else if row.is(0, b"reloc") {
        o.relocs.push(row.reloc())?;
    } else if !row.words.is_empty() {
        o.symbols.push(row.symbol(alloc, row.is(0, b"global"))?)?;
    }
    Ok(())
}

fn object(alloc: Global, text: &[u8]) -> Result<Object, OutOfMemory> {
    let mut o = Object {
        sections: Seq::new(alloc),
        symbols: Seq::new(alloc),
        relocs: Seq::new(alloc),
    };
    for row in text.split(|c| *c == b';') {
        add(alloc, &mut o, &row_of(alloc, row)?)?;
    }
    Ok(o)
}

/// The object where it is valid.
fn valid(alloc: Global, text: &[u8]) -> Result<Object, OutOfMemory>
    ensures { IfOk result IsWellFormed }
{
    let object = object(alloc, text)?;
    if object.valid() {
        Ok(object)
    } else {
        Err(OutOfMemory)
    }
}

/// The objects of a text, where all are valid.
pub fn objects(alloc: Global, text: &str) -> Result<Seq<Object>, OutOfMemory>
    ensures formed { IfOk result (All IsWellFormed) }
    ensures few { IfOk result (λ os. length os ≤ MAX_OBJECTS) }
{
    let mut objects = Seq::new(alloc);
    for object in text.as_bytes().split(|c| *c == b'/') {
        objects.push(valid(alloc, object)?)?;
    }
    if objects.len() <= MAX_OBJECTS as usize {
        Ok(objects)
    } else {
        Err(OutOfMemory)
    }
}
