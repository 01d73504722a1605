//! The names that the standard gives to the fields of an ELF file and their values. System V ELF,
//! "Object Files" and "Program Loading"; SPU ABI, "Object Files". Offsets and sizes are in bytes.

// ---- machines and types of files

/// A processor of the PowerPC.
pub const EM_PPC: u16 = 20;
/// A processor of the SPU.
pub const EM_SPU: u16 = 23;
/// An object.
pub const ET_REL: u16 = 1;
/// An executable.
pub const ET_EXEC: u16 = 2;
/// The only version there is.
pub const EV_CURRENT: u32 = 1;

// ---- the first sixteen bytes of a file

/// What they begin with.
pub const ELF_MAGIC: u32 = 0x7f45_4c46;
/// Where the class stands.
pub const EI_CLASS: usize = 4;
/// Where the order of bytes stands.
pub const EI_DATA: usize = 5;
/// Where the version stands.
pub const EI_VERSION: usize = 6;
/// Where the padding begins.
pub const EI_PAD: usize = 7;
/// How much padding there is.
pub const EI_PAD_SIZE: usize = 9;
/// A file of 32 bits.
pub const ELFCLASS32: u8 = 1;
/// Numbers are big-endian.
pub const ELFDATA2MSB: u8 = 2;
/// The version of those bytes.
pub const EI_CURRENT: u8 = 1;

// ---- the header of a file

/// The type.
pub const E_TYPE: usize = 16;
/// The machine.
pub const E_MACHINE: usize = 18;
/// The version.
pub const E_VERSION: usize = 20;
/// The address of the first instruction.
pub const E_ENTRY: usize = 24;
/// Where the program headers begin.
pub const E_PHOFF: usize = 28;
/// Where the section headers begin.
pub const E_SHOFF: usize = 32;
/// Flags of the machine, of which the SPU has none.
pub const E_FLAGS: usize = 36;
/// The size of the header.
pub const E_EHSIZE: usize = 40;
/// The size of a program header.
pub const E_PHENTSIZE: usize = 42;
/// The number of program headers.
pub const E_PHNUM: usize = 44;
/// The size of a section header.
pub const E_SHENTSIZE: usize = 46;
/// The number of section headers.
pub const E_SHNUM: usize = 48;
/// The number of the section that has the names of sections.
pub const E_SHSTRNDX: usize = 50;

// ---- sizes of headers and entries

/// The size of the header of a file.
pub const EHDR_SIZE: usize = 52;
/// The size of a program header.
pub const PHDR_SIZE: usize = 32;
/// The size of a section header.
pub const SHDR_SIZE: usize = 40;
/// The size of a symbol.
pub const SYM_SIZE: usize = 16;
/// The size of a relocation.
pub const RELA_SIZE: usize = 12;

// ---- section headers

/// Where the name begins in the table of section names.
pub const SH_NAME: usize = 0;
/// The type.
pub const SH_TYPE: usize = 4;
/// The flags.
pub const SH_FLAGS: usize = 8;
/// Where the bytes begin in the file.
pub const SH_OFFSET: usize = 16;
/// The size, in bytes.
pub const SH_SIZE: usize = 20;
/// The number of a section that it needs.
pub const SH_LINK: usize = 24;
/// For relocations the number of the section that they change, for a symbol table that of the first
/// global symbol.
pub const SH_INFO: usize = 28;
/// What the address is a multiple of.
pub const SH_ADDRALIGN: usize = 32;
/// The size of an entry of a table.
pub const SH_ENTSIZE: usize = 36;

/// No section.
pub const SHT_NULL: u32 = 0;
/// Code or data.
pub const SHT_PROGBITS: u32 = 1;
/// A symbol table.
pub const SHT_SYMTAB: u32 = 2;
/// A string table.
pub const SHT_STRTAB: u32 = 3;
/// Relocations with addends.
pub const SHT_RELA: u32 = 4;
/// Zeros, which take no bytes in the file.
pub const SHT_NOBITS: u32 = 8;
/// Relocations without addends.
pub const SHT_REL: u32 = 9;

/// Data that is written.
pub const SHF_WRITE: u32 = 1;
/// What is loaded.
pub const SHF_ALLOC: u32 = 2;
/// Instructions.
pub const SHF_EXECINSTR: u32 = 4;
/// Bytes that are compressed.
pub const SHF_COMPRESSED: u32 = 0x800;

// ---- symbols

/// The value.
pub const ST_VALUE: usize = 4;
/// The size, in bytes.
pub const ST_SIZE: usize = 8;
/// The binding, times 16, and the type.
pub const ST_INFO: usize = 12;
/// A byte that is zero.
pub const ST_OTHER: usize = 13;
/// The number of the section.
pub const ST_SHNDX: usize = 14;

/// Undefined.
pub const SHN_UNDEF: u16 = 0;
/// Absolute: the value is a number.
pub const SHN_ABS: u16 = 0xfff1;
/// What a binding counts in an info.
pub const ST_BIND: u8 = 16;
/// Seen in this object alone.
pub const STB_LOCAL: u8 = 0;
/// Seen in all objects.
pub const STB_GLOBAL: u8 = 1;
/// Anything.
pub const STT_NOTYPE: u8 = 0;
/// Data.
pub const STT_OBJECT: u8 = 1;
/// Code that is called.
pub const STT_FUNC: u8 = 2;
/// A section as a whole.
pub const STT_SECTION: u8 = 3;
/// The name of a source file.
pub const STT_FILE: u8 = 4;

// ---- relocations

/// The symbol, times 256, and the type.
pub const R_INFO: usize = 4;
/// The addend.
pub const R_ADDEND: usize = 8;
/// What a symbol counts in an info.
pub const R_SYM: u32 = 256;
/// No relocation at all.
pub const R_NONE: u32 = 0;
/// The greatest type.
pub const MAX_R_TYPE: u32 = 255;

// ---- program headers

/// The address.
pub const P_VADDR: usize = 8;
/// The size in the file.
pub const P_FILESZ: usize = 16;
/// What follows the size in the file.
pub const P_MEMSZ: usize = 20;

/// A segment that is loaded.
pub const PT_LOAD: u32 = 1;
/// Instructions.
pub const PF_X: u32 = 1;
/// What is written.
pub const PF_W: u32 = 2;
/// What is read.
pub const PF_R: u32 = 4;
/// A segment that is loaded on demand.
pub const PF_OVERLAY: u32 = 0x0800_0000;

// ---- what this chain adds

/// What the place of a segment in the file, and its alignment, is a multiple of.
pub const SEGMENT_ALIGN: usize = 128;
/// What the place of a section of an object in the file is a multiple of.
pub const SECTION_STEP: usize = 16;
/// What the places of tables and of section headers are multiples of.
pub const TABLE_ALIGN: usize = 4;
/// What the size of a segment is a multiple of.
pub const SEGMENT_STEP: usize = 16;
/// The most segments of an executable.
pub const MAX_SEGMENTS: usize = 16_384;
/// The most bytes of the name of a section that has relocations: `.rela` goes before it.
pub const MAX_RELOCATED_NAME_SIZE: usize = 1_018;
