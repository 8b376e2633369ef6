//! The fields of an instruction word (unprivileged ISA, "Base Instruction Formats").

ghost use Rattle.std.specs.Prelude.{◌≡◌, ◌<◌, pos, neg_ℤ, ◌≤ℤ◌, ◌<ℤ◌};
ghost use Rattle.ad_isa.specs.Fields.{opcode, funct3, funct6, funct7, rd, rs1, rs2, amount, amount32, i_immediate, s_immediate, b_immediate, u_immediate, j_immediate};
ghost use Rattle.ad_isa.specs.Words.{In12, IsAmount, IsMultiple};

#[tactic(auto, unfolding(crate::specs::Fields::opcode))]
pub(crate) fn opcode(word: u32) -> u32
    ensures { result ≡ opcode word }
{
    word & 0x7f
}

#[tactic(auto, unfolding(crate::specs::Fields::rd))]
pub(crate) fn rd(word: u32) -> u8
    ensures value { result ≡ rd word }
    ensures register { result < 32 }
{
    ((word >> 7) & 0x1f) as u8
}

#[tactic(auto, unfolding(crate::specs::Fields::funct3))]
pub(crate) fn funct3(word: u32) -> u32
    ensures { result ≡ funct3 word }
{
    (word >> 12) & 0x7
}

#[tactic(auto, unfolding(crate::specs::Fields::rs1))]
pub(crate) fn rs1(word: u32) -> u8
    ensures value { result ≡ rs1 word }
    ensures register { result < 32 }
{
    ((word >> 15) & 0x1f) as u8
}

#[tactic(auto, unfolding(crate::specs::Fields::rs2))]
pub(crate) fn rs2(word: u32) -> u8
    ensures value { result ≡ rs2 word }
    ensures register { result < 32 }
{
    ((word >> 20) & 0x1f) as u8
}

#[tactic(auto, unfolding(crate::specs::Fields::funct7))]
pub(crate) fn funct7(word: u32) -> u32
    ensures { result ≡ funct7 word }
{
    word >> 25
}

#[tactic(auto, unfolding(crate::specs::Fields::funct6))]
pub(crate) fn funct6(word: u32) -> u32
    ensures { result ≡ funct6 word }
{
    word >> 26
}

/// By how many bits a shift of 64 bits shifts.
#[tactic(auto, unfolding(crate::specs::Fields::amount))]
pub(crate) fn amount(word: u32) -> i64
    ensures value { result ≡ amount word }
    ensures range { IsAmount 64 result }
{
    i64::from((word >> 20) & 0x3f)
}

/// By how many bits a shift of 32 bits shifts.
#[tactic(auto, unfolding(crate::specs::Fields::amount32))]
pub(crate) fn amount32(word: u32) -> i64
    ensures value { result ≡ amount32 word }
    ensures range { IsAmount 32 result }
{
    i64::from((word >> 20) & 0x1f)
}

#[tactic(auto, unfolding(crate::specs::Fields::i_immediate))]
pub(crate) fn i_immediate(word: u32) -> i64
    ensures value { result ≡ i_immediate word }
    ensures range { In12 result }
{
    let low = i64::from(word >> 20);
    if low < 0x800 { low } else { low - 0x1000 }
}

#[tactic(auto, unfolding(crate::specs::Fields::s_immediate))]
pub(crate) fn s_immediate(word: u32) -> i64
    ensures value { result ≡ s_immediate word }
    ensures range { In12 result }
{
    let low = i64::from((word >> 25) * 0x20 + ((word >> 7) & 0x1f));
    if low < 0x800 { low } else { low - 0x1000 }
}

#[tactic(auto, unfolding(crate::specs::Fields::b_immediate))]
pub(crate) fn b_immediate(word: u32) -> i64
    ensures value { result ≡ b_immediate word }
    ensures range { IsMultiple 2 0x1000 result }
{
    let bits_4_to_1 = (word >> 8) & 0xf;
    let bits_10_to_5 = (word >> 25) & 0x3f;
    let bit_11 = (word >> 7) & 1;
    let low = i64::from(bit_11 * 0x800 + bits_10_to_5 * 0x20 + bits_4_to_1 * 2);
    if word >> 31 == 0 { low } else { low - 0x1000 }
}

#[tactic(auto, unfolding(crate::specs::Fields::u_immediate))]
pub(crate) fn u_immediate(word: u32) -> i64
    ensures value { result ≡ u_immediate word }
    ensures range { IsMultiple 0x1000 0x80000000 result }
{
    let high = i64::from(word >> 12) * 0x1000;
    if high < 0x8000_0000 {
        high
    } else {
        high - 0x1_0000_0000
    }
}

#[tactic(auto, unfolding(crate::specs::Fields::j_immediate))]
pub(crate) fn j_immediate(word: u32) -> i64
    ensures value { result ≡ j_immediate word }
    ensures range { IsMultiple 2 0x100000 result }
{
    let bits_10_to_1 = (word >> 21) & 0x3ff;
    let bit_11 = (word >> 20) & 1;
    let bits_19_to_12 = (word >> 12) & 0xff;
    let low = i64::from(bits_19_to_12 * 0x1000 + bit_11 * 0x800 + bits_10_to_1 * 2);
    if word >> 31 == 0 {
        low
    } else {
        low - 0x10_0000
    }
}
