//! Layouts.

ghost use Rattle.std.specs.Prelude.{◌≡◌, ◌<◌, ◌≤◌};
ghost use Rattle.spu_word.specs.declared.limits.TheConstants.{STORE_SIZE};
ghost use Rattle.spu_layout.specs.Views.{function_count, layout_in};

use spu_lift::Label;
use spu_plan::constants::STUB_SIZE;
use spu_word::Seq;
use spu_word::limits::WORD_SIZE;

/// A range of addresses, its end outside.
#[derive(Clone, Copy, PartialEq, Eq, Debug)]
pub struct Span {
    pub from: u32,
    pub to: u32,
}

/// The parts of the local store: data, code, the buffers of overlays together, and the stack.
#[derive(Clone, Copy, PartialEq, Eq, Debug)]
pub struct Areas {
    pub data_area: Span,
    pub code: Span,
    pub buffer: Span,
    pub stack: Span,
}

/// Where a function begins, and its region.
#[derive(Clone, Copy)]
pub(crate) struct Spot {
    pub(crate) start: u32,
    pub(crate) region: u32,
}

/// What stands behind the root: in an overlay image the stubs and the loader's words, the mapped quadwords, and the table; in
/// a flat one nothing.
#[derive(Clone, Copy)]
pub(crate) struct Tail {
    pub(crate) passage: Span,
    pub(crate) return_entry: u32,
    pub(crate) slots: Span,
    pub(crate) end: u32,
}

/// Where the functions of a program lie, and the parts of the local store.
#[derive(Drop)]
pub struct Layout {
    pub(crate) functions: Seq<Spot>,
    // Whether labels of functions lead to stubs.
    pub(crate) overlay: bool,
    pub(crate) tail: Tail,
    pub(crate) areas: Areas,
}

impl Layout {
    ghost use Rattle.spu_layout.specs.Labels.{address_of, call_target, jump_target, label_function};

    /// Where function f is.
    fn spot(&self, f: u32) -> Spot
        requires { f < function_count self.now }
        ensures start { result.start ≡ (layout_in self.now).at f 0 }
        ensures region { result.region ≡ (layout_in self.now).region f }
    {
        match self.functions.get(f as usize) {
            Some(spot) => *spot,
            None => unreachable!(),
        }
    }

    /// The address of word i of function f, or of the place behind its last one.
    pub fn address(&self, f: u32, i: u32) -> u32
        requires known { f < function_count self.now }
        requires inside { (layout_in self.now).at f i ≤ STORE_SIZE }
        ensures { result ≡ (layout_in self.now).at f i }
    {
        self.spot(f).start + WORD_SIZE * i
    }

    /// The region of function f, 0 for the root.
    pub fn region(&self, f: u32) -> u32
        requires { f < function_count self.now }
        ensures { result ≡ (layout_in self.now).region f }
    {
        self.spot(f).region
    }

    /// Where a label of function f leads: to its stub, and in a flat image to its first word.
    fn entry(&self, f: u32) -> u32
        requires known { f < function_count self.now }
        requires inside { (layout_in self.now).entry f ≤ STORE_SIZE }
        ensures { result ≡ (layout_in self.now).entry f }
    {
        if self.overlay {
            self.tail.passage.from + STUB_SIZE * f.saturating_sub(1)
        } else {
            self.spot(f).start
        }
    }

    /// The address of a label: that of a place; for a function, in the root too, that of its stub, and in a flat image its own;
    /// and for a link that to which it leads, from a region the loader's.
    pub fn code(&self, l: Label) -> u32
        requires known { label_function l < function_count self.now }
        requires inside { address_of (layout_in self.now) l ≤ STORE_SIZE }
        ensures { result ≡ address_of (layout_in self.now) l }
    {
        match l {
            Label::Fun(f) => self.entry(f),
            Label::Place(f, i) => self.address(f, i),
            Label::Link(f, i) => if self.region(f) == 0 {
                self.address(f, i)
            } else {
                self.tail.return_entry
            },
        }
    }

    /// Where a call of function g in function f leads: to g's stub where either is in a region.
    pub fn call_target(&self, f: u32, g: u32) -> u32
        requires caller { f < function_count self.now }
        requires callee { g < function_count self.now }
        requires inside { call_target (layout_in self.now) f g ≤ STORE_SIZE }
        ensures { result ≡ call_target (layout_in self.now) f g }
    {
        if self.region(f) == 0 && self.region(g) == 0 {
            self.address(g, 0)
        } else {
            self.entry(g)
        }
    }

    /// Where a jump to function g in function f leads: to g's stub where g is in a region that isn't f's own.
    pub fn jump_target(&self, f: u32, g: u32) -> u32
        requires from { f < function_count self.now }
        requires to { g < function_count self.now }
        requires inside { jump_target (layout_in self.now) f g ≤ STORE_SIZE }
        ensures { result ≡ jump_target (layout_in self.now) f g }
    {
        let region = self.region(g);
        if region == 0 || region == self.region(f) {
            self.address(g, 0)
        } else {
            self.entry(g)
        }
    }

    /// The areas, in order: each ends where the next one begins, or before it.
    pub fn areas(&self) -> Areas
        ensures data_area { result.data_area ≡ (layout_in self.now).data_area }
        ensures code { result.code ≡ (layout_in self.now).code_area }
        ensures buffer { result.buffer ≡ (layout_in self.now).buffers }
        ensures stack { result.stack ≡ (layout_in self.now).stack }
    {
        self.areas
    }

    /// The stubs and the loader's words: where a run is between the places of functions. Empty in a flat image.
    pub fn passage(&self) -> Span
        ensures { result ≡ (layout_in self.now).passage }
    {
        self.tail.passage
    }

    /// The mapped quadwords, one for each buffer. Empty in a flat image.
    pub fn slots(&self) -> Span
        ensures { result ≡ (layout_in self.now).slots }
    {
        self.tail.slots
    }

    /// Where links of places in regions lead.
    pub fn return_entry(&self) -> u32
        ensures { result ≡ (layout_in self.now).return_entry }
    {
        self.tail.return_entry
    }
}
