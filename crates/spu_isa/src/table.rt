//! The instruction table.

ghost use Rattle.std.specs.Prelude.{◌≡◌, ◌/◌, ◌^◌, ◌-◌, IfSome};
ghost use Rattle.spu_isa.specs.declared.operation.Op.{Op};
ghost use Rattle.spu_isa.specs.declared.operation.TheConstants.{OPCODE_BITS};
ghost use Rattle.spu_isa.specs.Table.{row_of, format_of, opcode_bits, opcode_of};
ghost use Rattle.spu_isa.specs.Rows.{IsRowOf};

use crate::operation::{Format, Kind, Layout, OP_COUNT, Op, OpInfo, Register};

/// A row of the table, without its texts and lists.
#[derive(Clone, Copy)]
pub struct OpRow {
    pub op: Op,
    pub layout: Layout,
    /// The opcode of 11 bits; a shorter one stands in the high bits.
    pub opcode: u32,
    pub kind: Kind,
    /// The bytes of a lane of the result, 0 where it has none.
    pub lane: u8,
    pub writes: bool,
}

/// The rows, in the order of `Op`, handed to a macro that makes one thing of them. A row has the operation, its mnemonic,
/// its layout, the first 11 bits of its words, its kind, the bytes of a lane, whether it writes rt, and the fields that
/// must be zero.
macro_rules! table {
    ($use:ident $($value:expr)?) => {
        $use! { ($($value)?)
            A "a" Rr 0x0c0..=0x0c0 Compute 4 true [];
            Absdb "absdb" Rr 0x053..=0x053 Compute 1 true [];
            Addx "addx" Rr 0x340..=0x340 Compute 4 true [];
            Ah "ah" Rr 0x0c8..=0x0c8 Compute 2 true [];
            Ahi "ahi" Ri10 0x0e8..=0x0ef Compute 2 true [];
            Ai "ai" Ri10 0x0e0..=0x0e7 Compute 4 true [];
            And "and" Rr 0x0c1..=0x0c1 Compute 1 true [];
            Andbi "andbi" Ri10 0x0b0..=0x0b7 Compute 1 true [];
            Andc "andc" Rr 0x2c1..=0x2c1 Compute 1 true [];
            Andhi "andhi" Ri10 0x0a8..=0x0af Compute 2 true [];
            Andi "andi" Ri10 0x0a0..=0x0a7 Compute 4 true [];
            Avgb "avgb" Rr 0x0d3..=0x0d3 Compute 1 true [];
            Bg "bg" Rr 0x042..=0x042 Compute 4 true [];
            Bgx "bgx" Rr 0x343..=0x343 Compute 4 true [];
            Bi "bi" Rr 0x1a8..=0x1a8 Indirect 0 false [Rb, Rt];
            Bihnz "bihnz" Rr 0x12b..=0x12b Indirect 0 false [Rb];
            Bihz "bihz" Rr 0x12a..=0x12a Indirect 0 false [Rb];
            Binz "binz" Rr 0x129..=0x129 Indirect 0 false [Rb];
            Bisl "bisl" Rr 0x1a9..=0x1a9 PointerCall 0 true [Rb];
            Biz "biz" Rr 0x128..=0x128 Indirect 0 false [Rb];
            Br "br" Ri16 0x190..=0x193 Branch 0 false [Rt];
            Bra "bra" Ri16 0x180..=0x183 Branch 0 false [Rt];
            Brasl "brasl" Ri16 0x188..=0x18b Call 0 true [];
            Brhnz "brhnz" Ri16 0x118..=0x11b Branch 0 false [];
            Brhz "brhz" Ri16 0x110..=0x113 Branch 0 false [];
            Brnz "brnz" Ri16 0x108..=0x10b Branch 0 false [];
            Brsl "brsl" Ri16 0x198..=0x19b Call 0 true [];
            Brz "brz" Ri16 0x100..=0x103 Branch 0 false [];
            Cbd "cbd" Ri7 0x1f4..=0x1f4 Compute 16 true [];
            Cbx "cbx" Rr 0x1d4..=0x1d4 Compute 16 true [];
            Cdd "cdd" Ri7 0x1f7..=0x1f7 Compute 16 true [];
            Cdx "cdx" Rr 0x1d7..=0x1d7 Compute 16 true [];
            Ceq "ceq" Rr 0x3c0..=0x3c0 Compute 4 true [];
            Ceqb "ceqb" Rr 0x3d0..=0x3d0 Compute 1 true [];
            Ceqbi "ceqbi" Ri10 0x3f0..=0x3f7 Compute 1 true [];
            Ceqh "ceqh" Rr 0x3c8..=0x3c8 Compute 2 true [];
            Ceqhi "ceqhi" Ri10 0x3e8..=0x3ef Compute 2 true [];
            Ceqi "ceqi" Ri10 0x3e0..=0x3e7 Compute 4 true [];
            Cg "cg" Rr 0x0c2..=0x0c2 Compute 4 true [];
            Cgt "cgt" Rr 0x240..=0x240 Compute 4 true [];
            Cgtb "cgtb" Rr 0x250..=0x250 Compute 1 true [];
            Cgtbi "cgtbi" Ri10 0x270..=0x277 Compute 1 true [];
            Cgth "cgth" Rr 0x248..=0x248 Compute 2 true [];
            Cgthi "cgthi" Ri10 0x268..=0x26f Compute 2 true [];
            Cgti "cgti" Ri10 0x260..=0x267 Compute 4 true [];
            Cgx "cgx" Rr 0x342..=0x342 Compute 4 true [];
            Chd "chd" Ri7 0x1f5..=0x1f5 Compute 16 true [];
            Chx "chx" Rr 0x1d5..=0x1d5 Compute 16 true [];
            Clgt "clgt" Rr 0x2c0..=0x2c0 Compute 4 true [];
            Clgtb "clgtb" Rr 0x2d0..=0x2d0 Compute 1 true [];
            Clgtbi "clgtbi" Ri10 0x2f0..=0x2f7 Compute 1 true [];
            Clgth "clgth" Rr 0x2c8..=0x2c8 Compute 2 true [];
            Clgthi "clgthi" Ri10 0x2e8..=0x2ef Compute 2 true [];
            Clgti "clgti" Ri10 0x2e0..=0x2e7 Compute 4 true [];
            Clz "clz" Rr 0x2a5..=0x2a5 Compute 4 true [Rb];
            Cntb "cntb" Rr 0x2b4..=0x2b4 Compute 1 true [Rb];
            Cwd "cwd" Ri7 0x1f6..=0x1f6 Compute 16 true [];
            Cwx "cwx" Rr 0x1d6..=0x1d6 Compute 16 true [];
            Dsync "dsync" Rr 0x003..=0x003 Nothing 0 false [Rb, Ra, Rt];
            Eqv "eqv" Rr 0x249..=0x249 Compute 1 true [];
            Fsm "fsm" Rr 0x1b4..=0x1b4 Compute 16 true [Rb];
            Fsmb "fsmb" Rr 0x1b6..=0x1b6 Compute 16 true [Rb];
            Fsmbi "fsmbi" Ri16 0x194..=0x197 Compute 1 true [];
            Fsmh "fsmh" Rr 0x1b5..=0x1b5 Compute 16 true [Rb];
            Gb "gb" Rr 0x1b0..=0x1b0 Compute 16 true [Rb];
            Gbb "gbb" Rr 0x1b2..=0x1b2 Compute 16 true [Rb];
            Gbh "gbh" Rr 0x1b1..=0x1b1 Compute 16 true [Rb];
            Hbr "hbr" HintA 0x1ac..=0x1ac Nothing 0 false [];
            Hbra "hbra" HintB 0x080..=0x08f Nothing 0 false [];
            Hbrr "hbrr" HintB 0x090..=0x09f Nothing 0 false [];
            Heq "heq" Rr 0x3d8..=0x3d8 HaltTest 0 false [];
            Heqi "heqi" Ri10 0x3f8..=0x3ff HaltTest 0 false [];
            Hgt "hgt" Rr 0x258..=0x258 HaltTest 0 false [];
            Hgti "hgti" Ri10 0x278..=0x27f HaltTest 0 false [];
            Hlgt "hlgt" Rr 0x2d8..=0x2d8 HaltTest 0 false [];
            Hlgti "hlgti" Ri10 0x2f8..=0x2ff HaltTest 0 false [];
            Il "il" Ri16 0x204..=0x207 Compute 4 true [];
            Ila "ila" Ri18 0x210..=0x21f Compute 4 true [];
            Ilh "ilh" Ri16 0x20c..=0x20f Compute 2 true [];
            Ilhu "ilhu" Ri16 0x208..=0x20b Compute 4 true [];
            Iohl "iohl" Ri16 0x304..=0x307 Compute 4 true [];
            Lnop "lnop" Rr 0x001..=0x001 Nothing 0 false [Rb, Ra, Rt];
            Lqa "lqa" Ri16 0x184..=0x187 Load 0 true [];
            Lqd "lqd" Ri10 0x1a0..=0x1a7 Load 0 true [];
            Lqr "lqr" Ri16 0x19c..=0x19f Load 0 true [];
            Lqx "lqx" Rr 0x1c4..=0x1c4 Load 0 true [];
            Mpy "mpy" Rr 0x3c4..=0x3c4 Compute 4 true [];
            Mpya "mpya" Rrr 0x600..=0x67f Compute 4 true [];
            Mpyh "mpyh" Rr 0x3c5..=0x3c5 Compute 4 true [];
            Mpyhh "mpyhh" Rr 0x3c6..=0x3c6 Compute 4 true [];
            Mpyhha "mpyhha" Rr 0x346..=0x346 Compute 4 true [];
            Mpyhhau "mpyhhau" Rr 0x34e..=0x34e Compute 4 true [];
            Mpyhhu "mpyhhu" Rr 0x3ce..=0x3ce Compute 4 true [];
            Mpyi "mpyi" Ri10 0x3a0..=0x3a7 Compute 4 true [];
            Mpys "mpys" Rr 0x3c7..=0x3c7 Compute 4 true [];
            Mpyu "mpyu" Rr 0x3cc..=0x3cc Compute 4 true [];
            Mpyui "mpyui" Ri10 0x3a8..=0x3af Compute 4 true [];
            Nand "nand" Rr 0x0c9..=0x0c9 Compute 1 true [];
            Nop "nop" Rr 0x201..=0x201 Nothing 0 false [Rb, Ra];
            Nor "nor" Rr 0x049..=0x049 Compute 1 true [];
            Or "or" Rr 0x041..=0x041 Compute 1 true [];
            Orbi "orbi" Ri10 0x030..=0x037 Compute 1 true [];
            Orc "orc" Rr 0x2c9..=0x2c9 Compute 1 true [];
            Orhi "orhi" Ri10 0x028..=0x02f Compute 2 true [];
            Ori "ori" Ri10 0x020..=0x027 Compute 4 true [];
            Orx "orx" Rr 0x1f0..=0x1f0 Compute 16 true [Rb];
            Rchcnt "rchcnt" Rr 0x00f..=0x00f ChannelOp 0 true [Rb];
            Rdch "rdch" Rr 0x00d..=0x00d ChannelOp 0 true [Rb];
            Rot "rot" Rr 0x058..=0x058 Compute 4 true [];
            Roth "roth" Rr 0x05c..=0x05c Compute 2 true [];
            Rothi "rothi" Ri7 0x07c..=0x07c Compute 2 true [];
            Rothm "rothm" Rr 0x05d..=0x05d Compute 2 true [];
            Rothmi "rothmi" Ri7 0x07d..=0x07d Compute 2 true [];
            Roti "roti" Ri7 0x078..=0x078 Compute 4 true [];
            Rotm "rotm" Rr 0x059..=0x059 Compute 4 true [];
            Rotma "rotma" Rr 0x05a..=0x05a Compute 4 true [];
            Rotmah "rotmah" Rr 0x05e..=0x05e Compute 2 true [];
            Rotmahi "rotmahi" Ri7 0x07e..=0x07e Compute 2 true [];
            Rotmai "rotmai" Ri7 0x07a..=0x07a Compute 4 true [];
            Rotmi "rotmi" Ri7 0x079..=0x079 Compute 4 true [];
            Rotqbi "rotqbi" Rr 0x1d8..=0x1d8 Compute 16 true [];
            Rotqbii "rotqbii" Ri7 0x1f8..=0x1f8 Compute 16 true [];
            Rotqby "rotqby" Rr 0x1dc..=0x1dc Compute 0 true [];
            Rotqbybi "rotqbybi" Rr 0x1cc..=0x1cc Compute 0 true [];
            Rotqbyi "rotqbyi" Ri7 0x1fc..=0x1fc Compute 0 true [];
            Rotqmbi "rotqmbi" Rr 0x1d9..=0x1d9 Compute 16 true [];
            Rotqmbii "rotqmbii" Ri7 0x1f9..=0x1f9 Compute 16 true [];
            Rotqmby "rotqmby" Rr 0x1dd..=0x1dd Compute 0 true [];
            Rotqmbyi "rotqmbyi" Ri7 0x1fd..=0x1fd Compute 0 true [];
            Selb "selb" Rrr 0x400..=0x47f Compute 1 true [];
            Sf "sf" Rr 0x040..=0x040 Compute 4 true [];
            Sfh "sfh" Rr 0x048..=0x048 Compute 2 true [];
            Sfhi "sfhi" Ri10 0x068..=0x06f Compute 2 true [];
            Sfi "sfi" Ri10 0x060..=0x067 Compute 4 true [];
            Sfx "sfx" Rr 0x341..=0x341 Compute 4 true [];
            Shl "shl" Rr 0x05b..=0x05b Compute 4 true [];
            Shlh "shlh" Rr 0x05f..=0x05f Compute 2 true [];
            Shlhi "shlhi" Ri7 0x07f..=0x07f Compute 2 true [];
            Shli "shli" Ri7 0x07b..=0x07b Compute 4 true [];
            Shlqbi "shlqbi" Rr 0x1db..=0x1db Compute 16 true [];
            Shlqbii "shlqbii" Ri7 0x1fb..=0x1fb Compute 16 true [];
            Shlqby "shlqby" Rr 0x1df..=0x1df Compute 0 true [];
            Shlqbybi "shlqbybi" Rr 0x1cf..=0x1cf Compute 0 true [];
            Shlqbyi "shlqbyi" Ri7 0x1ff..=0x1ff Compute 0 true [];
            Shufb "shufb" Rrr 0x580..=0x5ff Compute 1 true [];
            Stop "stop" StopForm 0x000..=0x000 StopOp 0 false [];
            Stqa "stqa" Ri16 0x104..=0x107 Store 0 false [];
            Stqd "stqd" Ri10 0x120..=0x127 Store 0 false [];
            Stqr "stqr" Ri16 0x11c..=0x11f Store 0 false [];
            Stqx "stqx" Rr 0x144..=0x144 Store 0 false [];
            Sumb "sumb" Rr 0x253..=0x253 Compute 4 true [];
            Sync "sync" Rr 0x002..=0x002 Nothing 0 false [Rb, Ra, Rt];
            Wrch "wrch" Rr 0x10d..=0x10d ChannelOp 0 false [Rb];
            Xor "xor" Rr 0x241..=0x241 Compute 1 true [];
            Xorbi "xorbi" Ri10 0x230..=0x237 Compute 1 true [];
            Xorhi "xorhi" Ri10 0x228..=0x22f Compute 2 true [];
            Xori "xori" Ri10 0x220..=0x227 Compute 4 true [];
            Xsbh "xsbh" Rr 0x2b6..=0x2b6 Compute 2 true [Rb];
            Xshw "xshw" Rr 0x2ae..=0x2ae Compute 4 true [Rb];
            Xswd "xswd" Rr 0x2a6..=0x2a6 Compute 8 true [Rb];
        }
    };
}

/// The rows but for their mnemonics and zero fields.
macro_rules! rows {
    (() $($op:ident $name:literal $layout:ident $first:literal..=$last:literal $kind:ident $lane:literal $writes:literal [$($zero:ident),*];)*) => {
        [$(OpRow {
            op: Op::$op,
            layout: Layout::$layout,
            opcode: $first,
            kind: Kind::$kind,
            lane: $lane,
            writes: $writes,
        }),*]
    };
}

/// The mnemonic of an operation.
macro_rules! name_of {
    (($value:expr) $($op:ident $name:literal $layout:ident $first:literal..=$last:literal $kind:ident $lane:literal $writes:literal [$($zero:ident),*];)*) => {
        match $value {
            $(Op::$op => $name,)*
        }
    };
}

/// The fields that must be zero in the words of an operation.
macro_rules! zeros_of {
    (($value:expr) $($op:ident $name:literal $layout:ident $first:literal..=$last:literal $kind:ident $lane:literal $writes:literal [$($zero:ident),*];)*) => {
        match $value {
            $(Op::$op => &[$(Register::$zero),*],)*
        }
    };
}

/// The operation whose words begin with these 11 bits.
macro_rules! op_with_prefix {
    (($value:expr) $($op:ident $name:literal $layout:ident $first:literal..=$last:literal $kind:ident $lane:literal $writes:literal [$($zero:ident),*];)*) => {
        match $value {
            $($first..=$last => Some(Op::$op),)*
            _ => None,
        }
    };
}

/// The rows, in the order of `Op`.
pub static ROWS: [OpRow; OP_COUNT] = table!(rows);

/// The row of an operation.
pub fn row(op: Op) -> OpRow
    ensures { IsRowOf op result }
{
    ROWS[op as usize]
}

/// The mnemonic of an operation.
pub fn mnemonic(op: Op) -> &'static str
    ensures { result.now ≡ (row_of op).name }
{
    table!(name_of op)
}

/// The fields that must be zero in the words of an operation.
pub fn zero_fields(op: Op) -> &'static [Register]
    ensures { result.now ≡ (row_of op).zero_fields }
{
    table!(zeros_of op)
}

/// The operation whose opcode a word with these first 11 bits has.
pub fn op_with_prefix(prefix: u32) -> Option<Op>
    ensures some { IfSome result (λ op. prefix / 2 ^ (OPCODE_BITS - opcode_bits (row_of op).layout) ≡ opcode_of op) }
    ensures only { (op : Op) → prefix / 2 ^ (OPCODE_BITS - opcode_bits (row_of op).layout) ≡ opcode_of op → result ≡ Some op }
{
    table!(op_with_prefix prefix)
}

impl Layout {
    /// The format of which it is a layout.
    fn format(self) -> Format
        ensures { result ≡ format_of self }
    {
        match self {
            Layout::Rr => Format::Rr,
            Layout::Rrr => Format::Rrr,
            Layout::Ri7 => Format::Ri7,
            Layout::Ri10 => Format::Ri10,
            Layout::Ri16 => Format::Ri16,
            Layout::Ri18 => Format::Ri18,
            Layout::HintA | Layout::HintB => Format::Hint,
            Layout::StopForm => Format::StopForm,
        }
    }
}

/// What is known of an operation.
pub fn info(op: Op) -> OpInfo
    ensures { result ≡ record { format = format_of (row_of op).layout; lane = (row_of op).lane; kind = (row_of op).kind; writes = (row_of op).writes } }
{
    let row = row(op);
    OpInfo {
        format: row.layout.format(),
        lane: row.lane,
        kind: row.kind,
        writes: row.writes,
    }
}
