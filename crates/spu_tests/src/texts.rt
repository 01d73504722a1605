//! A text of every directive.

use spu_asm::assemble;
use spu_elf::{Object, SecKind, SymPlace};
use std::test::Fail;

const EVERY: &[u8] = b".file \"every.c\"
.ident \"a directive each\"
.text
.align 5
.globl f
.type f,@function
f: il $3,1; bi $0
.size f,.-f
.global main
.type main,@function
main: nop; bi $0
.size main,.-main
.data
.p2align 6
a: .byte 1,-1; .hword 0x0203; .short 4
.word 5; .long 6; .int 7; .quad 8; .octa 9
.ascii \"bc\"; .asciz \"d\"; .string \"e\"
.space 3; .skip 1; .zero 4
.bss
z: .space 8
.local c
.comm c,4,4
.section .rodata,\"a\"
r: .word a
";

const CODE: &[u8] = b"\x40\x80\0\x83\x35\0\0\0\x40\x20\0\0\x35\0\0\0";

const DATA: &[u8] =
    b"\x01\xff\x02\x03\0\x04\0\0\0\x05\0\0\0\x06\0\0\0\x07\0\0\0\0\0\0\0\x08\0\0\0\0\0\0\0\0\0\0\0\0\0\0\0\x09bcd\0e\0\0\0\0\0\0\0\0\0";

// The value, the size and the section of the symbol of this name, and whether it is global.
fn symbol(object: &Object, name: &[u8]) -> Option<(u32, u32, SymPlace, bool)> {
    for symbol in &object.symbols {
        if symbol.name.as_slice() == name {
            return Some((symbol.value, symbol.size, symbol.place, symbol.global));
        }
    }
    None
}

#[test]
fn every_directive(rt: HostRuntime) -> Result<(), Fail> {
    let object = assemble(rt.alloc(), EVERY).ok().ok_or("an object")?;
    let sections: [(&[u8], SecKind, u32, u32, &[u8]); 4] = [
        (b".text", SecKind::Code, 32, 16, CODE),
        (b".data", SecKind::Vars, 64, 56, DATA),
        (b".bss", SecKind::Zero, 16, 12, b""),
        (b".rodata", SecKind::Const, 16, 4, b"\0\0\0\0"),
    ];
    assert_eq!(rt; object.sections.len(), sections.len());
    for (i, (name, kind, align, size, bytes)) in sections.into_iter().enumerate() {
        let section = object.sections.get(i).ok_or("a section")?;
        assert_eq!(rt; section.name.as_slice(), name);
        assert_eq!(rt;
            (section.kind, section.align, section.size),
            (kind, align, size),
            "at {i}"
        );
        assert_eq!(rt; section.bytes.as_slice(), bytes, "at {i}");
    }
    let symbols: [(&[u8], (u32, u32, SymPlace, bool)); 6] = [
        (b"f", (0, 8, SymPlace::Inside(0), true)),
        (b"main", (8, 8, SymPlace::Inside(0), true)),
        (b"a", (0, 0, SymPlace::Inside(1), false)),
        (b"z", (0, 0, SymPlace::Inside(2), false)),
        (b"c", (8, 4, SymPlace::Inside(2), false)),
        (b"r", (0, 0, SymPlace::Inside(3), false)),
    ];
    assert_eq!(rt; object.symbols.len(), symbols.len());
    for (name, expected) in symbols {
        assert_eq!(rt; symbol(&object, name), Some(expected));
    }
    let reloc = object.relocs.get(0).ok_or("a relocation")?;
    assert_eq!(rt;
        (reloc.section, reloc.offset, reloc.kind, reloc.addend),
        (3, 0, 6, 0)
    );
    assert_eq!(rt; object.relocs.len(), 1);
    Ok(())
}
