//! Generated workloads, linked without overlays, run and checked.

use crate::status::Status;
use crate::tests::Outside;
use spu_elf::write_object;
use spu_gen::workload;
use spu_word::Bytes;
use std::alloc::Global;
use std::str;
use std::test::Fail;

// The file of a workload.
fn workload_file(alloc: Global, seed: u32, count: u32) -> Result<Bytes, Fail> {
    if count < 1 || count > 400 {
        return Err("no such workload")?;
    }
    let object = workload(alloc, seed, count)?;
    if !object.valid() {
        return Err("not valid")?;
    }
    let file = write_object(alloc, &object).ok().ok_or("memory")?;
    Ok(file)
}

// How many words a text tells of the outbound mailbox, and their sum modulo 2^32.
fn told(text: &[u8]) -> Result<(u32, u32), Fail> {
    let text = str::from_utf8(text).ok().ok_or("no text")?;
    let mut words = 0u32;
    let mut sum = 0u32;
    for line in text.lines() {
        if let Some(word) = line.strip_prefix("out ") {
            words = words.wrapping_add(1);
            sum = sum.wrapping_add(word.parse().ok().ok_or("no number")?);
        }
    }
    Ok((words, sum))
}

#[test]
fn workloads_run_as_they_are_checked(rt: HostRuntime) -> Result<(), Fail> {
    let alloc = rt.alloc();
    let rows = [
        (0, 1, 64, 7_735),
        (1, 3, 96, 36_371),
        (0, 10, 160, 166_498),
        (3_948_198_594, 60, 224, 936_486),
        (1, 400, 320, 6_740_234),
    ];
    for (seed, count, need, sum) in rows {
        let mut outside = Outside::new(alloc, None, None)?;
        let file = workload_file(alloc, seed, count)?;
        outside.files.hold("gen.o", file.as_slice())?;
        assert_eq!(rt; outside.call(alloc, "link gen.elf gen.o")?, Status::Ok);
        let functions = count + 1;
        let summary = format!(in alloc;
            "image flat\nfunctions {functions}\nstack {need} of 16384\n"
        )?;
        assert!(rt; outside.out.as_slice().starts_with(summary.as_bytes()));
        assert_eq!(rt; outside.call(alloc, "run gen.elf")?, Status::Ok);
        assert_eq!(rt; told(outside.out.as_slice())?, (count, sum));
        let mut outside = Outside::new(alloc, None, None)?;
        outside.files.hold("gen.o", file.as_slice())?;
        assert_eq!(rt; outside.call(alloc, "check gen.o")?, Status::Ok);
        assert_eq!(rt; told(outside.out.as_slice())?, (count, sum));
    }
    Ok(())
}
