//! The words of two images, by the public table of the instructions and by hand.

use spu_loader::{loader_words, stub_words};
use std::test::Fail;

/// One buffer of 16,384 bytes at 640, the table at 560, the loader at 224.
#[test]
fn words_of_one_buffer(rt: HostRuntime) -> Result<(), Fail> {
    let words = loader_words(224, 640, 16_384, 1, 560);
    let expected = [
        0x4201_3fcc,
        0x5813_004b,
        0x2000_06cb,
        0x4201_424d,
        0x0800_26cd,
        0x0f3c_a6cd,
        0x0f61_26cd,
        0x4200_f84c,
        0x1813_664c,
        0x3400_264d,
        0x3fbe_0000,
        0x3fbf_26cd,
        0x3380_1e4c,
        0x0833_4000,
        0x0833_0000,
        0x2000_17ce,
        0x1cff_e74c,
        0x1400_264c,
        0x0f61_264c,
        0x4200_f84d,
        0x1813_664c,
        0x3400_264d,
        0x7813_a6cd,
        0x2100_13cd,
        0x32f8_004b,
        0x1832_e74b,
        0x2400_264b,
        0x0f61_274c,
        0x4201_184d,
        0x1813_664c,
        0x3400_264d,
        0x21a0_084d,
        0x3f81_26cc,
        0x40a0_004b,
        0x5812_e64e,
        0x8992_e64e,
        0x21a0_09cc,
        0x3f82_26cc,
        0x3380_134b,
        0x3f81_25ce,
        0x1813_274c,
        0x21a0_094c,
        0x5813_274e,
        0x0812_e74b,
        0x21a0_08cb,
        0x4080_0fcc,
        0x21a0_0a4c,
        0x4080_204c,
        0x21a0_0acc,
        0x3380_0fcc,
        0x1813_26cd,
        0x3f81_26cc,
        0x4c00_264c,
        0x217f_f54c,
        0x01a0_064e,
        0x4140_004c,
        0x21a0_0b4c,
        0x4080_014c,
        0x21a0_0bcc,
        0x01a0_0c4c,
        0x21a0_0b4e,
        0x0040_0000,
        0x3500_2780,
        0x3f81_004e,
        0x3f82_004f,
        0x327f_e700,
    ];
    assert_eq!(rt; words.as_slice(), expected.as_slice());
    Ok(())
}

/// Eight buffers of 1,024 bytes at 2048, the table at 1600, the loader at 1024: the words that depend on these numbers.
#[test]
fn words_of_eight_buffers(rt: HostRuntime) -> Result<(), Fail> {
    let words = loader_words(1_024, 2_048, 1_024, 8, 1_600);
    let addresses = [words[0], words[3], words[7], words[19], words[28]];
    assert_eq!(rt;
        addresses.as_slice(),
        [
            0x4203_ffcc,
            0x4204_024d,
            0x4202_884c,
            0x4202_884d,
            0x4203_204d
        ]
        .as_slice()
    );
    let numbers = [words[5], words[12], words[17], words[38], words[49]];
    assert_eq!(rt;
        numbers.as_slice(),
        [
            0x0f3d_a6cd,
            0x3380_2c4c,
            0x1401_e64c,
            0x3380_214b,
            0x3380_1dcc
        ]
        .as_slice()
    );
    Ok(())
}

/// The stub at 208 of a function at 640 in region 1, and the one at 192 of a function at 160 in the root.
#[test]
fn words_of_stubs(rt: HostRuntime) -> Result<(), Fail> {
    let near = stub_words(224, 208, 1, 640);
    assert_eq!(rt;
        near.as_slice(),
        [0x4200_00ce, 0x0020_0000, 0x4201_404f, 0x3200_0080].as_slice()
    );
    let far = stub_words(224, 192, 0, 160);
    assert_eq!(rt;
        far.as_slice(),
        [0x4200_004e, 0x0020_0000, 0x4200_504f, 0x3200_0280].as_slice()
    );
    Ok(())
}
