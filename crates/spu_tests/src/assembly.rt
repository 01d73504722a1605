//! Whole texts.

use spu_asm::{AsmFault, AsmKind, assemble};
use spu_elf::{Object, SecKind, SymPlace};
use std::alloc::Global;
use std::test::Fail;

/// The fault of a text and its line; None where it has an object.
fn fault(alloc: Global, text: &[u8]) -> Option<(AsmKind, u32)> {
    match assemble(alloc, text) {
        Err(AsmFault::Fault { kind, line }) => Some((kind, line)),
        Ok(_) | Err(AsmFault::OutOfMemory) => None,
    }
}

/// The object of a text.
fn object(alloc: Global, text: &[u8]) -> Result<Object, Fail> {
    let made = assemble(alloc, text).ok().ok_or("an object")?;
    Ok(made)
}

/// Whether each of the texts, between bytes 0, has this fault in this line.
fn are_refused(alloc: Global, kind: AsmKind, line: u32, texts: &[u8]) -> bool {
    for text in texts.split(|b| *b == 0) {
        if fault(alloc, text) != Some((kind, line)) {
            return false;
        }
    }
    true
}

const UNKNOWN: &[u8] = b"foo $1\0foo\n\x80\0a: foo; a: nop\0$3: nop\0.";

const OPERANDS: &[u8] =
    b"br 4\0il $3,99999,1\0ila $3,.\0ilhu $3,$4@h\0ilhu $3,.@h\0lqd $3,4\0hbr .,$3";

const RANGES: &[u8] =
    b"il $3,40000\0nop 128\0nop -1\0.byte 256\0.byte 256,,\0.byte x,256\0stqd $3,8($1)";

#[test]
fn tokens_and_operands_refuse(rt: HostRuntime) -> Result<(), Fail> {
    let alloc = rt.alloc();
    assert!(rt; are_refused(alloc, AsmKind::UnknownMnemonic, 1, UNKNOWN));
    assert!(rt; are_refused(alloc, AsmKind::BadOperand, 1, OPERANDS));
    assert!(rt; are_refused(alloc, AsmKind::Range, 1, RANGES));
    assert!(rt; are_refused(alloc, AsmKind::BadNumber, 1, b"il $3,12x"));
    assert!(rt; are_refused(alloc, AsmKind::NotAscii, 2, b"nop\n\x80"));
    assert!(rt; are_refused(alloc, AsmKind::LineTooLong, 1, &[b' '; 513]));
    assert_eq!(rt; object(alloc, &[b' '; 512])?.sections.len(), 0);
    Ok(())
}

const DIRECTIVES: &[u8] =
    b".comm x,4,16\0.comm x,4,12\0.foo\0.align 8\0.space -1\0.byte x\0.byte 256 x\0.word x+4294967296 y\0.global x,y\0.ascii \"a\" \"b\"\0.type x,@tls\0.size x,.-x\0.section a,aw\0.local x,y\0.file \"a\0.file \"a\\q\"";

const SECTIONS: &[u8] = b"x:\n.data; .size x,.-x\0.bss\n.word 1\0.data\nnop\0.byte 1\n.align 3";

#[test]
fn statements_refuse(rt: HostRuntime) -> Result<(), Fail> {
    let alloc = rt.alloc();
    assert!(rt; are_refused(alloc, AsmKind::BadDirective, 1, DIRECTIVES));
    assert!(rt; are_refused(alloc, AsmKind::BadDirective, 2, SECTIONS));
    assert!(rt;
        are_refused(
            alloc,
            AsmKind::DuplicateLabel,
            2,
            b"a:\na:\n\0x:\n.local x; .comm x,4,4"
        )
    );
    assert!(rt; are_refused(alloc, AsmKind::DuplicateLabel, 1, b"a: a: nop"));
    assert!(rt; are_refused(alloc, AsmKind::SectionTooLarge, 2, b".data\n.space 262145"));
    assert!(rt; are_refused(alloc, AsmKind::TooLarge, 3, b"x: nop\n.size x,5\n#"));
    assert!(rt; are_refused(alloc, AsmKind::TooLarge, 1, b".section .eh_frame"));
    Ok(())
}

#[test]
fn a_call_of_another_text(rt: HostRuntime) -> Result<(), Fail> {
    let made = object(rt.alloc(), b".align 5; brsl $0,f; nop 127; nop $127; nop")?;
    let text = made.sections.get(0).ok_or("a section")?;
    assert_eq!(rt; text.name.as_slice(), b".text".as_slice());
    assert_eq!(rt; (text.kind, text.align, text.size), (SecKind::Code, 32, 16));
    assert_eq!(rt;
        text.bytes.as_slice(),
        b"\x33\0\0\0\x40\x20\0\x7f\x40\x20\0\x7f\x40\x20\0\0".as_slice()
    );
    let reloc = made.relocs.get(0).ok_or("a relocation")?;
    assert_eq!(rt; (reloc.section, reloc.offset, reloc.symbol), (0, 0, 0));
    assert_eq!(rt; (reloc.kind, reloc.addend), (7, 0));
    let symbol = made.symbols.get(0).ok_or("a symbol")?;
    assert_eq!(rt; symbol.name.as_slice(), b"f".as_slice());
    assert_eq!(rt; (symbol.global, symbol.place), (true, SymPlace::Undefined));
    Ok(())
}

#[test]
fn a_common_symbol(rt: HostRuntime) -> Result<(), Fail> {
    let made = object(rt.alloc(), b".local x\n.comm x,4,16\n")?;
    assert_eq!(rt; made.sections.len(), 1);
    let bss = made.sections.get(0).ok_or("a section")?;
    assert_eq!(rt; bss.name.as_slice(), b".bss".as_slice());
    assert_eq!(rt; (bss.kind, bss.align, bss.size), (SecKind::Zero, 16, 4));
    let symbol = made.symbols.get(0).ok_or("a symbol")?;
    assert_eq!(rt; (symbol.value, symbol.size), (0, 4));
    assert_eq!(rt; (symbol.global, symbol.place), (false, SymPlace::Inside(0)));
    let zeros = b"x: .align -0; .space -0; nop -0; .size x,-0; .local y; .comm y,-0,4".as_slice();
    assert_eq!(rt; object(rt.alloc(), zeros)?.sections.len(), 2);
    Ok(())
}
