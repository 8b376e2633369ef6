//! The formats of instruction words (unprivileged ISA, "Base Instruction Formats"), as sums of their fields.

ghost use Rattle.std.specs.Prelude.{◌≡◌, ◌<◌, ◌%◌};
ghost use Rattle.ad_isa.specs.Fields as fields;
ghost use Rattle.ad_isa.specs.Fields.{signed_bits};
ghost use Rattle.ad_isa.specs.Words.{In12, IsAmount, IsMultiple};

/// A word of the R format.
#[tactic(auto, unfolding(ad_isa::specs::Fields::opcode, ad_isa::specs::Fields::funct3, ad_isa::specs::Fields::funct7, ad_isa::specs::Fields::rd, ad_isa::specs::Fields::rs1, ad_isa::specs::Fields::rs2))]
pub(crate) fn registers_word(code: u32, function: u32, more: u32, rd: u8, rs1: u8, rs2: u8) -> u32
    requires code { code < 0x80 }
    requires function { function < 8 }
    requires more { more < 0x80 }
    requires rd { rd < 32 }
    requires rs1 { rs1 < 32 }
    requires rs2 { rs2 < 32 }
    ensures opcode { fields.opcode result ≡ code }
    ensures funct3 { fields.funct3 result ≡ function }
    ensures funct7 { fields.funct7 result ≡ more }
    ensures rd { fields.rd result ≡ rd }
    ensures rs1 { fields.rs1 result ≡ rs1 }
    ensures rs2 { fields.rs2 result ≡ rs2 }
{
    code + u32::from(rd) * 0x80
        + function * 0x1000
        + u32::from(rs1) * 0x8000
        + u32::from(rs2) * 0x10_0000
        + more * 0x200_0000
}

/// A word of the I format.
#[tactic(auto, unfolding(ad_isa::specs::Fields::opcode, ad_isa::specs::Fields::funct3, ad_isa::specs::Fields::rd, ad_isa::specs::Fields::rs1, ad_isa::specs::Fields::i_immediate))]
pub(crate) fn immediate_word(code: u32, function: u32, rd: u8, rs1: u8, imm: i64) -> u32
    requires code { code < 0x80 }
    requires function { function < 8 }
    requires rd { rd < 32 }
    requires rs1 { rs1 < 32 }
    requires imm { In12 imm }
    ensures opcode { fields.opcode result ≡ code }
    ensures funct3 { fields.funct3 result ≡ function }
    ensures rd { fields.rd result ≡ rd }
    ensures rs1 { fields.rs1 result ≡ rs1 }
    ensures imm { fields.i_immediate result ≡ imm }
{
    code + u32::from(rd) * 0x80
        + function * 0x1000
        + u32::from(rs1) * 0x8000
        + low_12(imm) * 0x10_0000
}

/// A word of a shift of 64 bits.
#[tactic(auto, unfolding(ad_isa::specs::Fields::opcode, ad_isa::specs::Fields::funct3, ad_isa::specs::Fields::funct6, ad_isa::specs::Fields::rd, ad_isa::specs::Fields::rs1, ad_isa::specs::Fields::amount))]
pub(crate) fn shift_word(function: u32, more: u32, rd: u8, rs1: u8, imm: i64) -> u32
    requires function { function < 8 }
    requires more { more < 0x40 }
    requires rd { rd < 32 }
    requires rs1 { rs1 < 32 }
    requires imm { IsAmount 64 imm }
    ensures opcode { fields.opcode result ≡ 0x13 }
    ensures funct3 { fields.funct3 result ≡ function }
    ensures funct6 { fields.funct6 result ≡ more }
    ensures rd { fields.rd result ≡ rd }
    ensures rs1 { fields.rs1 result ≡ rs1 }
    ensures imm { fields.amount result ≡ imm }
{
    0x13 + u32::from(rd) * 0x80
        + function * 0x1000
        + u32::from(rs1) * 0x8000
        + (imm as u32) * 0x10_0000
        + more * 0x400_0000
}

/// A word of a shift of 32 bits.
#[tactic(auto, unfolding(ad_isa::specs::Fields::opcode, ad_isa::specs::Fields::funct3, ad_isa::specs::Fields::funct7, ad_isa::specs::Fields::rd, ad_isa::specs::Fields::rs1, ad_isa::specs::Fields::amount32))]
pub(crate) fn shift_32_word(function: u32, more: u32, rd: u8, rs1: u8, imm: i64) -> u32
    requires function { function < 8 }
    requires more { more < 0x80 }
    requires rd { rd < 32 }
    requires rs1 { rs1 < 32 }
    requires imm { IsAmount 32 imm }
    ensures opcode { fields.opcode result ≡ 0x1b }
    ensures funct3 { fields.funct3 result ≡ function }
    ensures funct7 { fields.funct7 result ≡ more }
    ensures rd { fields.rd result ≡ rd }
    ensures rs1 { fields.rs1 result ≡ rs1 }
    ensures imm { fields.amount32 result ≡ imm }
{
    0x1b + u32::from(rd) * 0x80
        + function * 0x1000
        + u32::from(rs1) * 0x8000
        + (imm as u32) * 0x10_0000
        + more * 0x200_0000
}

/// A word of the S format.
#[tactic(auto, unfolding(ad_isa::specs::Fields::opcode, ad_isa::specs::Fields::funct3, ad_isa::specs::Fields::rs1, ad_isa::specs::Fields::rs2, ad_isa::specs::Fields::s_immediate))]
pub(crate) fn store_word(code: u32, function: u32, rs1: u8, rs2: u8, imm: i64) -> u32
    requires code { code < 0x80 }
    requires function { function < 8 }
    requires rs1 { rs1 < 32 }
    requires rs2 { rs2 < 32 }
    requires imm { In12 imm }
    ensures opcode { fields.opcode result ≡ code }
    ensures funct3 { fields.funct3 result ≡ function }
    ensures rs1 { fields.rs1 result ≡ rs1 }
    ensures rs2 { fields.rs2 result ≡ rs2 }
    ensures imm { fields.s_immediate result ≡ imm }
{
    let low = low_12(imm);
    code + (low % 0x20) * 0x80
        + function * 0x1000
        + u32::from(rs1) * 0x8000
        + u32::from(rs2) * 0x10_0000
        + (low / 0x20) * 0x200_0000
}

/// A word of the B format.
#[tactic(auto, unfolding(ad_isa::specs::Fields::opcode, ad_isa::specs::Fields::funct3, ad_isa::specs::Fields::rs1, ad_isa::specs::Fields::rs2, ad_isa::specs::Fields::b_immediate))]
pub(crate) fn branch_word(code: u32, function: u32, rs1: u8, rs2: u8, imm: i64) -> u32
    requires code { code < 0x80 }
    requires function { function < 8 }
    requires rs1 { rs1 < 32 }
    requires rs2 { rs2 < 32 }
    requires imm { IsMultiple 2 0x1000 imm }
    ensures opcode { fields.opcode result ≡ code }
    ensures funct3 { fields.funct3 result ≡ function }
    ensures rs1 { fields.rs1 result ≡ rs1 }
    ensures rs2 { fields.rs2 result ≡ rs2 }
    ensures imm { fields.b_immediate result ≡ imm }
{
    let low = low_13(imm);
    code + (low / 0x800 % 2) * 0x80
        + (low / 2 % 0x10) * 0x100
        + function * 0x1000
        + u32::from(rs1) * 0x8000
        + u32::from(rs2) * 0x10_0000
        + (low / 0x20 % 0x40) * 0x200_0000
        + (low / 0x1000) * 0x8000_0000
}

/// A word of the U format.
#[tactic(auto, unfolding(ad_isa::specs::Fields::opcode, ad_isa::specs::Fields::rd, ad_isa::specs::Fields::u_immediate))]
pub(crate) fn upper_word(code: u32, rd: u8, imm: i64) -> u32
    requires code { code < 0x80 }
    requires rd { rd < 32 }
    requires imm { IsMultiple 0x1000 0x80000000 imm }
    ensures opcode { fields.opcode result ≡ code }
    ensures rd { fields.rd result ≡ rd }
    ensures imm { fields.u_immediate result ≡ imm }
{
    code + u32::from(rd) * 0x80 + low_32(imm)
}

/// A word of the J format.
#[tactic(auto, unfolding(ad_isa::specs::Fields::opcode, ad_isa::specs::Fields::rd, ad_isa::specs::Fields::j_immediate))]
pub(crate) fn jump_word(code: u32, rd: u8, imm: i64) -> u32
    requires code { code < 0x80 }
    requires rd { rd < 32 }
    requires imm { IsMultiple 2 0x100000 imm }
    ensures opcode { fields.opcode result ≡ code }
    ensures rd { fields.rd result ≡ rd }
    ensures imm { fields.j_immediate result ≡ imm }
{
    let low = low_21(imm);
    code + u32::from(rd) * 0x80
        + (low / 0x1000 % 0x100) * 0x1000
        + (low / 0x800 % 2) * 0x10_0000
        + (low / 2 % 0x400) * 0x20_0000
        + (low / 0x10_0000) * 0x8000_0000
}

/// The low 12 bits of an immediate.
fn low_12(imm: i64) -> u32
    requires { In12 imm }
    ensures signed { signed_bits 12 result ≡ imm }
    ensures below { result < 0x1000 }
{
    let low = if imm < 0 { imm + 0x1000 } else { imm };
    low as u32
}

/// The low 13 bits of an immediate.
fn low_13(imm: i64) -> u32
    requires { IsMultiple 2 0x1000 imm }
    ensures signed { signed_bits 13 result ≡ imm }
    ensures below { result < 0x2000 }
    ensures multiple { result % 0x2 ≡ 0 }
{
    let low = if imm < 0 { imm + 0x2000 } else { imm };
    low as u32
}

/// The low 21 bits of an immediate.
fn low_21(imm: i64) -> u32
    requires { IsMultiple 2 0x100000 imm }
    ensures signed { signed_bits 21 result ≡ imm }
    ensures below { result < 0x200000 }
    ensures multiple { result % 0x2 ≡ 0 }
{
    let low = if imm < 0 { imm + 0x200000 } else { imm };
    low as u32
}

/// The low 32 bits of an immediate.
fn low_32(imm: i64) -> u32
    requires { IsMultiple 0x1000 0x80000000 imm }
    ensures signed { signed_bits 32 result ≡ imm }
    ensures multiple { result % 0x1000 ≡ 0 }
{
    let low = if imm < 0 { imm + 0x100000000 } else { imm };
    low as u32
}
