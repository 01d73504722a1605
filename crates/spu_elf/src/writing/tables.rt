//! Symbol tables and relocation tables.

ghost use Rattle.std.specs.Prelude.{◌≡◌, ◌+◌, ◌^◌, ◌<◌, ◌≤◌, ℕ, List, [], ◌∷◌, ◌++◌, length, codes, OnOk, IfOk};
ghost use Rattle.std.specs.List.{flat_map, prefix_len};
ghost use Rattle.spu_elf.specs.Spelling.{symbol_table, with_symbol, with_tables, locals, is_in, relocation, relocation_part};
ghost use Rattle.spu_elf.specs.Spelling as spelling;
ghost use Rattle.spu_elf.specs.Views.{draft_of, symbols_of};

use crate::constants::{R_SYM, SYM_SIZE, TABLE_ALIGN};
use crate::objects::{Reloc, Symbol};
use crate::rows::{Head, place_number, symbol_info};
use crate::writing::drafts::{Growing, add_name, half_bytes, put_words};
use spu_word::{Bytes, OutOfMemory, Seq};
use std::alloc::Global;

/// A symbol table that grows, and its names.
#[derive(Drop)]
pub struct SymbolTable {
    entries: Bytes,
    strings: Bytes,
}

impl SymbolTable {
    /// Adds a symbol.
    #[tactic(auto, unfolding(crate::specs::Spelling::with_symbol))]
    fn add(&mut self, s: &Symbol) -> Result<(), OutOfMemory>
        ensures { OnOk result (symbols_of self.new ≡ with_symbol (symbols_of self.old) s.now) }
    {
        let name = add_name(&mut self.strings, s.name.as_slice())?;
        put_words(
            &mut self.entries,
            &[name, s.value as usize, s.size as usize],
        )?;
        self.entries.push(symbol_info(s.global, s.kind))?;
        self.entries.push(0)?;
        self.entries.extend(&half_bytes(place_number(s.place)))
    }
}

/// The symbol table of some symbols.
fn symbol_table(alloc: Global, symbols: &[Symbol]) -> Result<SymbolTable, OutOfMemory>
    ensures { IfOk result (λ t. symbols_of t ≡ symbol_table symbols.now) }
{
    let mut entries = Seq::new(alloc);
    entries.extend_zeros(SYM_SIZE)?;
    let mut strings = Seq::new(alloc);
    strings.push(0)?;
    let mut table = SymbolTable { entries, strings };
    for s in symbols {
        table.add(s)?;
    }
    Ok(table)
}

/// How many symbols stand before the first global one.
pub fn locals(symbols: &Seq<Symbol>) -> usize
    ensures value { result ≡ locals symbols.now }
    ensures within { result ≤ length symbols.now }
    ensures small { result < 2 ^ 63 }
{
    let len = symbols.len();
    for (i, s) in symbols.as_slice().iter().enumerate() {
        if s.global {
            return i;
        }
    }
    len
}

impl Growing {
    /// Adds the symbols and the string tables; `number` is the number of the section to come.
    pub fn add_tables(
        &mut self,
        alloc: Global,
        number: usize,
        symbols: &Seq<Symbol>,
    ) -> Result<(), OutOfMemory>
        requires { number < 2 ^ 32 }
        ensures { OnOk result (draft_of self.new ≡ with_tables number symbols.now (draft_of self.old)) }
    {
        let t = symbol_table(alloc, symbols.as_slice())?;
        let head = Head::symbols(number + 1, t.entries.len(), locals(symbols) + 1);
        self.add(b".symtab", &head, TABLE_ALIGN, t.entries.as_slice())?;
        self.add_strings(b".strtab", t.strings.as_slice())?;
        self.close(alloc)
    }
}

/// The relocations of one section.
#[derive(Clone, Copy)]
pub struct Group<'a> {
    /// The section's index.
    pub target: usize,
    /// The section's name.
    pub name: &'a [u8],
    pub relocs: &'a [Reloc],
}

/// How many of the relocations are in section k before the first that isn't.
pub fn group_len(relocs: &[Reloc], k: usize) -> usize
    ensures value { result ≡ prefix_len (is_in k) relocs.now }
    ensures within { result ≤ length relocs.now }
{
    for (i, r) in relocs.iter().enumerate() {
        if r.section as usize != k {
            return i;
        }
    }
    relocs.len()
}

/// Adds the entry of a relocation.
fn add_relocation(out: &mut Bytes, r: &Reloc) -> Result<(), OutOfMemory>
    ensures { OnOk result (out.new ≡ out.old ++ relocation r.now) }
{
    let addend = r.addend.cast_unsigned() as usize;
    put_words(
        out,
        &[
            r.offset as usize,
            (r.symbol as usize + 1) * R_SYM as usize + r.kind as usize,
            addend,
        ],
    )
}

/// The entries of some relocations.
pub fn relocation_entries(alloc: Global, relocs: &[Reloc]) -> Result<Bytes, OutOfMemory>
    ensures { IfOk result (λ b. b ≡ flat_map relocation relocs.now) }
{
    let mut entries = Seq::new(alloc);
    for r in relocs {
        add_relocation(&mut entries, r)?;
    }
    Ok(entries)
}

impl Growing {
    /// Adds the relocations of one section; `symbols` is the number of the symbol table.
    pub fn add_group(
        &mut self,
        alloc: Global,
        symbols: usize,
        group: &Group,
    ) -> Result<(), OutOfMemory>
        requires { group.now.target < 2 ^ 32 }
        ensures { OnOk result (draft_of self.new ≡ spelling.added (draft_of self.old) (relocation_part symbols (record { target = group.now.target; name = group.now.name.now; relocs = group.now.relocs.now }))) }
    {
        let entries = relocation_entries(alloc, group.relocs)?;
        let mut name = Seq::copied(alloc, b".rela")?;
        name.extend(group.name)?;
        let head = Head::relocations(symbols, group.target + 1, entries.len());
        self.add(name.as_slice(), &head, TABLE_ALIGN, entries.as_slice())
    }
}
