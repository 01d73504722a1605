//! The words of the loader and of stubs.

ghost use Rattle.std.specs.Prelude.{◌≡◌, ◌+◌, ◌*◌, ◌%◌, ◌<◌, ◌≤◌, ◌++◌, ℕ, ◌^◌, All, Some, length, map, take};
ghost use Rattle.spu_word.specs.declared.limits.TheConstants.{STORE_SIZE, WORD_SIZE};
ghost use Rattle.spu_isa.specs.Decoding.{decoded};
ghost use Rattle.spu_isa.specs.Table.{InRange};
ghost use Rattle.spu_plan.specs.declared.constants.TheConstants.{STUB_SIZE};
ghost use Rattle.spu_loader.specs.declared.constants.TheConstants.{LOADER_ROOM};
ghost use Rattle.spu_loader.specs.Forms.{AreWordsOf};
ghost use Rattle.spu_loader.specs.Code.{IsBufferCount, IsBufferSize, IsLoader, loader_code, stub_code};

use crate::constants::{
    COMMAND_WORD, EXIT_WORD, FETCH_WORD, LOADER_WORDS, STEP_WORD, STUB_WORDS, TEST_WORD, WAIT_WORD,
};
use crate::table::{Loader, leave, stub, wait};
use spu_isa::{Inst, encode};

/// Writes the words of instructions, from an index on.
fn put_words(words: &mut [u32], at: usize, code: &[Inst])
    requires room { at + length code.now ≤ length words.old }
    requires range { All InRange code.now }
    ensures { map decoded (take (at + length code.now) words.new) ≡ map decoded (take at words.old) ++ map Some code.now }
{
    for (i, instruction) in code.iter().enumerate() {
        words[at + i] = encode(instruction);
    }
}

impl Loader {
    /// Its words.
    fn words(&self) -> [u32; LOADER_WORDS]
        requires { IsLoader self.now }
        ensures { AreWordsOf (loader_code self.now) result }
    {
        let relink = self.relink();
        let test = self.test();
        let fetch = self.fetch();
        let command = self.command();
        let step = self.step();
        let wait = wait();
        let leave = leave();
        let mut words = [0; LOADER_WORDS];
        put_words(&mut words, 0, &relink);
        put_words(&mut words, TEST_WORD as usize, &test);
        put_words(&mut words, FETCH_WORD as usize, &fetch);
        put_words(&mut words, COMMAND_WORD as usize, &command);
        put_words(&mut words, STEP_WORD as usize, &step);
        put_words(&mut words, WAIT_WORD as usize, &wait);
        put_words(&mut words, EXIT_WORD as usize, &leave);
        words
    }
}

/// The 66 words of the loader that stands at `base`, for `buffers` buffers of `size` bytes each, from `buffer` on, and a table of
/// regions at `table`. All are addresses of the local store. The mapped quadwords stand behind the words.
pub fn loader_words(
    base: u32,
    buffer: u32,
    size: u32,
    buffers: u32,
    table: u32,
) -> [u32; LOADER_WORDS]
    requires places { (base + LOADER_ROOM < STORE_SIZE) × (1 ≤ buffer) × (buffer + WORD_SIZE < STORE_SIZE) × (table < STORE_SIZE) }
    requires size { IsBufferSize size }
    requires buffers { IsBufferCount buffers }
    ensures { (shift : ℕ) → size ≡ 2 ^ shift → AreWordsOf (loader_code (record { base = base; buffer = buffer; shift = shift; buffers = buffers; table = table })) result }
{
    let loader = Loader {
        base,
        buffer,
        shift: size.ilog2(),
        buffers,
        table,
    };
    loader.words()
}

/// The words of the stub at `at` of a function at `target` in a region, for the loader that stands behind it at `base`.
pub fn stub_words(base: u32, at: u32, region: u32, target: u32) -> [u32; STUB_WORDS]
    requires places { (at + STUB_SIZE ≤ base) × (base < STORE_SIZE) }
    requires fields { (region < 2 ^ 18) × (target < STORE_SIZE) }
    ensures { AreWordsOf (stub_code base at region target) result }
{
    let code = stub(base, at, region, target);
    let mut words = [0; STUB_WORDS];
    put_words(&mut words, 0, &code);
    words
}
