//! What the tables of a file hold. System V ELF, "Sections" and "Symbol Table"; numbers are big-endian.

/// A section header.
#[derive(Clone, Copy)]
pub struct Header {
    /// Where it stands in the file.
    pub place: usize,
    /// `sh_name`: where its name begins in the table of section names.
    pub name: u32,
    /// `sh_type`, and `SHT_NULL` for the null header.
    pub kind: u32,
    /// `sh_flags`.
    pub flags: u32,
    /// `sh_offset`: where its bytes begin in the file.
    pub offset: u32,
    /// `sh_size`, in bytes.
    pub size: u32,
    /// `sh_link`: the number of a section that it needs.
    pub link: u32,
    /// `sh_info`: for relocations the number of the section that they change.
    pub info: u32,
    /// `sh_addralign`: 0 or a power of two.
    pub align: u32,
    /// `sh_entsize`: the size of an entry of a table, in bytes.
    pub entry_size: u32,
}

/// A symbol's entry.
#[derive(Clone, Copy)]
pub struct Entry {
    /// Where it stands in the file.
    pub place: usize,
    /// `st_name`: where its name begins in the table of symbol names.
    pub name: u32,
    /// `st_value`.
    pub value: u32,
    /// `st_size`, in bytes.
    pub size: u32,
    /// `st_info`: the binding and the type.
    pub info: u8,
    /// `st_shndx`: the number of its section, `SHN_UNDEF` or `SHN_ABS`.
    pub shndx: u16,
}
