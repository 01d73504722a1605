//! The operands that each operation takes, by SPU ISA 1.2 and SPU Assembly Language.

ghost use Rattle.std.specs.Prelude.{◌≡◌, ◌<◌, ◌^◌, true, false};
ghost use Rattle.spu_asm.specs.Operands.{bounds_of, slots_of, is_optional};

use spu_isa::Op;

/// A register field of an instruction; the channel stands in `ra`.
#[derive(Clone, Copy, PartialEq, Eq, Debug)]
pub enum Field {
    Rt,
    Ra,
    Rb,
    Rc,
}

/// Which numbers an immediate field takes.
#[derive(Clone, Copy, PartialEq, Eq, Debug)]
pub enum Range {
    /// The code of `stop`.
    StopCode,
    /// A signed number of ten bits.
    TenBits,
    /// A number of seven bits, signed or not.
    SevenBits,
    /// A signed number of seven bits.
    Insertion,
    /// A signed number of ten bits, in quadwords.
    Displacement,
    /// A signed number of 16 bits.
    SignedHalf,
    /// A number of 16 bits, signed or not.
    Half,
    /// An address of 18 bits.
    Address,
    /// An address of 18 bits, in words.
    WordAddress,
    /// A distance in bytes, in words.
    WordDistance,
}

/// The numbers of a range.
#[derive(Clone, Copy, PartialEq, Eq, Debug)]
pub struct Bounds {
    /// How far below 0 the least number lies.
    pub low: u32,
    /// The greatest number.
    pub high: u32,
    /// What the number is a multiple of; the field holds the quotient.
    pub unit: u32,
    /// From this quotient on, twice as much is taken from it: the field is signed.
    pub half: u32,
}

/// An operand.
#[derive(Clone, Copy, PartialEq, Eq, Debug)]
pub enum Slot {
    /// A register.
    Register(Field),
    /// A register or its number, in `rt`.
    RegisterNumber,
    /// A channel or its number, in `ra`.
    Channel,
    /// A number.
    Number(Range),
    /// `.` with a distance in bytes, or a symbol.
    Relative,
    /// A number, or a symbol.
    Address(Range),
    /// A number, and `ra` in parentheses behind it.
    Memory(Range),
    /// A hint's place: a number of words, or a symbol.
    Place,
}

/// The operands of an operation.
#[derive(Clone, Copy)]
pub struct Form {
    pub slots: &'static [Slot],
    /// Whether the first may be left out.
    pub optional: bool,
}

const RT: Slot = Slot::Register(Field::Rt);

const RA: Slot = Slot::Register(Field::Ra);

const RB: Slot = Slot::Register(Field::Rb);

const RC: Slot = Slot::Register(Field::Rc);

/// The bounds of a range.
pub fn bounds_of(range: Range) -> Bounds
    ensures value { result ≡ bounds_of range }
    ensures small { (result.low < 2 ^ 20) × (result.high < 2 ^ 20) × (result.half < 2 ^ 20) }
    ensures unit { 0 < result.unit }
{
    match range {
        Range::StopCode => Bounds {
            low: 0,
            high: 16383,
            unit: 1,
            half: 131072,
        },
        Range::TenBits => Bounds {
            low: 512,
            high: 511,
            unit: 1,
            half: 512,
        },
        Range::SevenBits => Bounds {
            low: 64,
            high: 127,
            unit: 1,
            half: 64,
        },
        Range::Insertion => Bounds {
            low: 64,
            high: 63,
            unit: 1,
            half: 64,
        },
        Range::Displacement => Bounds {
            low: 8192,
            high: 8176,
            unit: 16,
            half: 512,
        },
        Range::SignedHalf => Bounds {
            low: 32768,
            high: 32767,
            unit: 1,
            half: 32768,
        },
        Range::Half => Bounds {
            low: 32768,
            high: 65535,
            unit: 1,
            half: 32768,
        },
        Range::Address => Bounds {
            low: 0,
            high: 262143,
            unit: 1,
            half: 262144,
        },
        Range::WordAddress => Bounds {
            low: 0,
            high: 262140,
            unit: 4,
            half: 32768,
        },
        Range::WordDistance => Bounds {
            low: 131072,
            high: 131068,
            unit: 4,
            half: 32768,
        },
    }
}

const STOP_CODE: Slot = Slot::Number(Range::StopCode);

const TEN_BITS: Slot = Slot::Number(Range::TenBits);

const SEVEN_BITS: Slot = Slot::Number(Range::SevenBits);

const INSERTION: Slot = Slot::Memory(Range::Insertion);

const DISPLACEMENT: Slot = Slot::Memory(Range::Displacement);

const SIGNED_HALF: Slot = Slot::Number(Range::SignedHalf);

const HALF: Slot = Slot::Number(Range::Half);

const HALF_OF_ADDRESS: Slot = Slot::Address(Range::Half);

const HINT_TARGET: Slot = Slot::Address(Range::SignedHalf);

const ADDRESS: Slot = Slot::Address(Range::Address);

const WORD_ADDRESS: Slot = Slot::Address(Range::WordAddress);

/// Operands of which none may be left out.
fn whole(slots: &'static [Slot]) -> Form
    ensures { (result.slots.now ≡ slots.now) × (result.optional ≡ false) }
{
    Form {
        slots,
        optional: false,
    }
}

/// Operands of which the first may be left out.
fn optional(slots: &'static [Slot]) -> Form
    ensures { (result.slots.now ≡ slots.now) × (result.optional ≡ true) }
{
    Form {
        slots,
        optional: true,
    }
}

/// The operands of an operation.
pub fn form_of(op: Op) -> Form
    ensures slots { result.slots.now ≡ slots_of op }
    ensures optional { result.optional ≡ is_optional op }
{
    match op {
        Op::Stop => optional(&[STOP_CODE]),
        Op::Lnop | Op::Sync | Op::Dsync => whole(&[]),
        Op::Rdch | Op::Rchcnt => whole(&[RT, Slot::Channel]),
        Op::Ori | Op::Orhi | Op::Orbi | Op::Sfi | Op::Sfhi | Op::Andi | Op::Andhi | Op::Andbi =>
            whole(&[RT, RA, TEN_BITS]),
        Op::Ai | Op::Ahi | Op::Xori | Op::Xorhi | Op::Xorbi | Op::Cgti | Op::Cgthi | Op::Cgtbi =>
            whole(&[RT, RA, TEN_BITS]),
        Op::Clgti
        | Op::Clgthi
        | Op::Clgtbi
        | Op::Mpyi
        | Op::Mpyui
        | Op::Ceqi
        | Op::Ceqhi
        | Op::Ceqbi => whole(&[RT, RA, TEN_BITS]),
        Op::Sf | Op::Or | Op::Bg | Op::Sfh | Op::Nor | Op::Absdb | Op::Rot | Op::Rotm => whole(&[
            RT, RA, RB,
        ]),
        Op::Rotma | Op::Shl | Op::Roth | Op::Rothm | Op::Rotmah | Op::Shlh | Op::A | Op::And =>
            whole(&[RT, RA, RB]),
        Op::Cg | Op::Ah | Op::Nand | Op::Avgb | Op::Stqx | Op::Lqx | Op::Rotqbybi | Op::Shlqbybi =>
            whole(&[RT, RA, RB]),
        Op::Cbx
        | Op::Chx
        | Op::Cwx
        | Op::Cdx
        | Op::Rotqbi
        | Op::Rotqmbi
        | Op::Shlqbi
        | Op::Rotqby => whole(&[RT, RA, RB]),
        Op::Rotqmby | Op::Shlqby | Op::Cgt | Op::Xor | Op::Cgth | Op::Eqv | Op::Cgtb | Op::Sumb =>
            whole(&[RT, RA, RB]),
        Op::Clgt | Op::Andc | Op::Clgth | Op::Orc | Op::Clgtb | Op::Addx | Op::Sfx | Op::Cgx =>
            whole(&[RT, RA, RB]),
        Op::Bgx | Op::Mpyhha | Op::Mpyhhau | Op::Ceq | Op::Mpy | Op::Mpyh | Op::Mpyhh | Op::Mpys =>
            whole(&[RT, RA, RB]),
        Op::Ceqh | Op::Mpyu | Op::Mpyhhu | Op::Ceqb => whole(&[RT, RA, RB]),
        Op::Roti
        | Op::Rotmi
        | Op::Rotmai
        | Op::Shli
        | Op::Rothi
        | Op::Rothmi
        | Op::Rotmahi
        | Op::Shlhi => whole(&[RT, RA, SEVEN_BITS]),
        Op::Rotqbii | Op::Rotqmbii | Op::Shlqbii | Op::Rotqbyi | Op::Rotqmbyi | Op::Shlqbyi =>
            whole(&[RT, RA, SEVEN_BITS]),
        Op::Hbra | Op::Hbrr => whole(&[Slot::Place, HINT_TARGET]),
        Op::Brz | Op::Brnz | Op::Brhz | Op::Brhnz | Op::Stqr | Op::Brsl | Op::Lqr => whole(&[
            RT,
            Slot::Relative,
        ]),
        Op::Stqa | Op::Lqa | Op::Brasl => whole(&[RT, WORD_ADDRESS]),
        Op::Wrch => whole(&[Slot::Channel, RT]),
        Op::Stqd | Op::Lqd => whole(&[RT, DISPLACEMENT]),
        Op::Biz | Op::Binz | Op::Bihz | Op::Bihnz | Op::Bisl | Op::Gb | Op::Gbh | Op::Gbb => whole(
            &[RT, RA],
        ),
        Op::Fsm | Op::Fsmh | Op::Fsmb | Op::Orx | Op::Clz | Op::Xswd | Op::Xshw | Op::Cntb => whole(
            &[RT, RA],
        ),
        Op::Xsbh => whole(&[RT, RA]),
        Op::Bra => whole(&[WORD_ADDRESS]),
        Op::Br => whole(&[Slot::Relative]),
        Op::Fsmbi | Op::Ilh => whole(&[RT, HALF]),
        Op::Bi => whole(&[RA]),
        Op::Hbr => whole(&[Slot::Place, RA]),
        Op::Cbd | Op::Chd | Op::Cwd | Op::Cdd => whole(&[RT, INSERTION]),
        Op::Nop => optional(&[Slot::RegisterNumber]),
        Op::Il => whole(&[RT, SIGNED_HALF]),
        Op::Ilhu => whole(&[RT, HALF_OF_ADDRESS]),
        Op::Ila => whole(&[RT, ADDRESS]),
        Op::Hgt | Op::Hlgt | Op::Heq => optional(&[RT, RA, RB]),
        Op::Hgti | Op::Hlgti | Op::Heqi => optional(&[RT, RA, TEN_BITS]),
        Op::Iohl => whole(&[RT, HALF_OF_ADDRESS]),
        Op::Selb | Op::Shufb | Op::Mpya => whole(&[RT, RA, RB, RC]),
    }
}
