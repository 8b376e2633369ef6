//! Results of the operations at the edges of their numbers, from an emulator of the architecture.
//!
//! They were made by `qemu-riscv64` 7.2 from a C program that makes each operation once for each pair of numbers (or each
//! number, where the second is an immediate) by `asm volatile("mulhsu %0, %1, %2" : "=r"(result) : "r"(a), "r"(b))` and
//! prints the results in order, as hexadecimal numbers:
//!
//!     clang --target=riscv64 -march=rv64im -mabi=lp64 -O1 -ffreestanding -nostdlib -static -fuse-ld=lld -o edges edges.c
//!     qemu-riscv64 ./edges
//!
//! The words are those that `clang --target=riscv64 -march=rv64im -c` makes of the lines above them.

use crate::call;
use crate::tests::code_bus::{BASE, CodeBus};
use ad_base::{Args, End};

/// The pairs of numbers in a0 and a1.
const PAIRS: [(u64, u64); 36] = [
    (0, 0),
    (1, 0),
    (0xffff_ffff_ffff_ffff, 0),
    (0x8000_0000_0000_0000, 0),
    (0x8000_0000_0000_0000, 0xffff_ffff_ffff_ffff),
    (0x8000_0000_0000_0000, 1),
    (0x8000_0000_0000_0000, 2),
    (0x7fff_ffff_ffff_ffff, 0xffff_ffff_ffff_ffff),
    (0x7fff_ffff_ffff_ffff, 0x7fff_ffff_ffff_ffff),
    (0x8000_0000_0000_0000, 0x8000_0000_0000_0000),
    (0x8000_0000_0000_0000, 0x7fff_ffff_ffff_ffff),
    (0x7fff_ffff_ffff_fffe, 0x8000_0000_0000_0001),
    (0xffff_ffff_ffff_ffff, 0xffff_ffff_ffff_ffff),
    (1, 0xffff_ffff_ffff_ffff),
    (0xffff_ffff_ffff_ffff, 1),
    (0, 0xffff_ffff_ffff_ffff),
    (0xffff_ffff_ffff_ffff, 2),
    (0xffff_ffff_ffff_fffe, 0x8000_0000),
    (0xffff_ffff_8000_0000, 0xffff_ffff_ffff_ffff),
    (0xffff_ffff_8000_0000, 0),
    (0x8000_0000, 0xffff_ffff_ffff_ffff),
    (0x7fff_ffff, 0x8000_0000),
    (0x8000_0000, 0x8000_0000),
    (0x8000_0001, 0xffff_ffff_7fff_ffff),
    (0xffff_ffff_7fff_ffff, 0x7fff_ffff),
    (0xffff_ffff, 1),
    (0xffff_ffff, 0xffff_ffff),
    (0x1_0000_0000, 0xffff_ffff),
    (0xffff_ffff_8000_0000, 0x1_0000_0000),
    (0x1_0000_0001, 0x1_0000_0001),
    (0x8000_0000_0000_0001, 0x1f),
    (0x8000_0000_0000_0001, 0x20),
    (0x7fff_ffff_ffff_ffff, 0x3f),
    (0xffff_ffff_8000_0001, 0x40),
    (0x1_0000_0001, 0x8000_0001),
    (1, 0x7fff_ffff_ffff_ffff),
];

/// The numbers in a0, where the second number is an immediate.
const NUMBERS: [(u64, u64); 18] = [
    (0, 0),
    (1, 0),
    (0xffff_ffff_ffff_ffff, 0),
    (2, 0),
    (0xffff_ffff_ffff_fffe, 0),
    (0x7fff_ffff, 0),
    (0x8000_0000, 0),
    (0x8000_0001, 0),
    (0xffff_ffff_8000_0000, 0),
    (0xffff_ffff_7fff_ffff, 0),
    (0xffff_ffff_8000_0001, 0),
    (0xffff_ffff, 0),
    (0x1_0000_0000, 0),
    (0x1_0000_0001, 0),
    (0x7fff_ffff_ffff_ffff, 0),
    (0x8000_0000_0000_0000, 0),
    (0x8000_0000_0000_0001, 0),
    (0x7fff_ffff_ffff_fffe, 0),
];

/// Words of operations on a0 and a1, and what a0 holds then, for each pair.
const ON_REGISTERS: [(u32, &str); 28] = [
    // add a0, a0, a1
    (
        0x00b5_0533,
        "0 1 ffffffffffffffff 8000000000000000 7fffffffffffffff 8000000000000001 \
         8000000000000002 7ffffffffffffffe fffffffffffffffe 0 ffffffffffffffff \
         ffffffffffffffff fffffffffffffffe 0 0 ffffffffffffffff 1 7ffffffe ffffffff7fffffff \
         ffffffff80000000 7fffffff ffffffff 100000000 0 fffffffffffffffe 100000000 1fffffffe \
         1ffffffff 80000000 200000002 8000000000000020 8000000000000021 800000000000003e \
         ffffffff80000041 180000002 8000000000000000",
    ),
    // sub a0, a0, a1
    (
        0x40b5_0533,
        "0 1 ffffffffffffffff 8000000000000000 8000000000000001 7fffffffffffffff \
         7ffffffffffffffe 8000000000000000 0 0 1 fffffffffffffffd 0 2 fffffffffffffffe 1 \
         fffffffffffffffd ffffffff7ffffffe ffffffff80000001 ffffffff80000000 80000001 \
         ffffffffffffffff 0 100000002 ffffffff00000000 fffffffe 0 1 fffffffe80000000 0 \
         7fffffffffffffe2 7fffffffffffffe1 7fffffffffffffc0 ffffffff7fffffc1 80000000 \
         8000000000000002",
    ),
    // sll a0, a0, a1
    (
        0x00b5_1533,
        "0 1 ffffffffffffffff 8000000000000000 0 0 0 8000000000000000 8000000000000000 \
         8000000000000000 0 fffffffffffffffc 8000000000000000 8000000000000000 \
         fffffffffffffffe 0 fffffffffffffffc fffffffffffffffe 0 ffffffff80000000 0 7fffffff \
         80000000 8000000000000000 8000000000000000 1fffffffe 8000000000000000 0 \
         ffffffff80000000 200000002 80000000 100000000 8000000000000000 ffffffff80000001 \
         200000002 8000000000000000",
    ),
    // slt a0, a0, a1
    (
        0x00b5_2533,
        "0 0 1 1 1 1 1 0 0 0 1 0 0 0 1 0 1 1 1 1 0 1 0 0 1 0 0 0 1 0 1 1 0 1 0 1",
    ),
    // sltu a0, a0, a1
    (
        0x00b5_3533,
        "0 0 0 0 1 0 0 1 0 0 0 1 0 1 0 1 0 0 1 0 1 1 0 1 0 0 0 0 0 0 0 0 0 0 0 1",
    ),
    // xor a0, a0, a1
    (
        0x00b5_4533,
        "0 1 ffffffffffffffff 8000000000000000 7fffffffffffffff 8000000000000001 \
         8000000000000002 8000000000000000 0 0 ffffffffffffffff ffffffffffffffff 0 \
         fffffffffffffffe fffffffffffffffe ffffffffffffffff fffffffffffffffd ffffffff7ffffffe \
         7fffffff ffffffff80000000 ffffffff7fffffff ffffffff 0 fffffffffffffffe \
         ffffffff00000000 fffffffe 0 1ffffffff fffffffe80000000 0 800000000000001e \
         8000000000000021 7fffffffffffffc0 ffffffff80000041 180000000 7ffffffffffffffe",
    ),
    // srl a0, a0, a1
    (
        0x00b5_5533,
        "0 1 ffffffffffffffff 8000000000000000 1 4000000000000000 2000000000000000 0 0 \
         8000000000000000 1 3fffffffffffffff 1 0 7fffffffffffffff 0 3fffffffffffffff \
         fffffffffffffffe 1 ffffffff80000000 0 7fffffff 80000000 0 1 7fffffff 0 0 \
         ffffffff80000000 80000000 100000000 80000000 0 ffffffff80000001 80000000 0",
    ),
    // sra a0, a0, a1
    (
        0x40b5_5533,
        "0 1 ffffffffffffffff 8000000000000000 ffffffffffffffff c000000000000000 \
         e000000000000000 0 0 8000000000000000 ffffffffffffffff 3fffffffffffffff \
         ffffffffffffffff 0 ffffffffffffffff 0 ffffffffffffffff fffffffffffffffe \
         ffffffffffffffff ffffffff80000000 0 7fffffff 80000000 0 ffffffffffffffff 7fffffff 0 \
         0 ffffffff80000000 80000000 ffffffff00000000 ffffffff80000000 0 ffffffff80000001 \
         80000000 0",
    ),
    // or a0, a0, a1
    (
        0x00b5_6533,
        "0 1 ffffffffffffffff 8000000000000000 ffffffffffffffff 8000000000000001 \
         8000000000000002 ffffffffffffffff 7fffffffffffffff 8000000000000000 ffffffffffffffff \
         ffffffffffffffff ffffffffffffffff ffffffffffffffff ffffffffffffffff ffffffffffffffff \
         ffffffffffffffff fffffffffffffffe ffffffffffffffff ffffffff80000000 ffffffffffffffff \
         ffffffff 80000000 ffffffffffffffff ffffffff7fffffff ffffffff ffffffff 1ffffffff \
         ffffffff80000000 100000001 800000000000001f 8000000000000021 7fffffffffffffff \
         ffffffff80000041 180000001 7fffffffffffffff",
    ),
    // and a0, a0, a1
    (
        0x00b5_7533,
        "0 0 0 0 8000000000000000 0 0 7fffffffffffffff 7fffffffffffffff 8000000000000000 0 0 \
         ffffffffffffffff 1 1 0 2 80000000 ffffffff80000000 0 80000000 0 80000000 1 7fffffff \
         1 ffffffff 0 100000000 100000001 1 0 3f 0 1 1",
    ),
    // mul a0, a0, a1
    (
        0x02b5_0533,
        "0 0 0 0 8000000000000000 8000000000000000 0 8000000000000001 1 0 8000000000000000 \
         7ffffffffffffffe 1 ffffffffffffffff ffffffffffffffff 0 fffffffffffffffe \
         ffffffff00000000 80000000 0 ffffffff80000000 3fffffff80000000 4000000000000000 \
         bffffffeffffffff c000000000000001 ffffffff fffffffe00000001 ffffffff00000000 \
         8000000000000000 200000001 800000000000001f 20 7fffffffffffffc1 ffffffe000000040 \
         8000000180000001 7fffffffffffffff",
    ),
    // mulh a0, a0, a1
    (
        0x02b5_1533,
        "0 0 0 0 0 ffffffffffffffff ffffffffffffffff ffffffffffffffff 3fffffffffffffff \
         4000000000000000 c000000000000000 c000000000000001 0 ffffffffffffffff \
         ffffffffffffffff 0 ffffffffffffffff ffffffffffffffff 0 0 ffffffffffffffff 0 0 \
         ffffffffffffffff ffffffffffffffff 0 0 0 ffffffffffffffff 1 fffffffffffffff0 \
         fffffffffffffff0 1f ffffffffffffffff 0 0",
    ),
    // mulhsu a0, a0, a1
    (
        0x02b5_2533,
        "0 0 0 0 8000000000000000 ffffffffffffffff ffffffffffffffff 7ffffffffffffffe \
         3fffffffffffffff c000000000000000 c000000000000000 3fffffffffffffff ffffffffffffffff \
         0 ffffffffffffffff 0 ffffffffffffffff ffffffffffffffff ffffffff80000000 0 7fffffff 0 \
         0 80000000 ffffffffffffffff 0 0 0 ffffffffffffffff 1 fffffffffffffff0 \
         fffffffffffffff0 1f ffffffffffffffff 0 0",
    ),
    // mulhu a0, a0, a1
    (
        0x02b5_3533,
        "0 0 0 0 7fffffffffffffff 0 1 7ffffffffffffffe 3fffffffffffffff 4000000000000000 \
         3fffffffffffffff 3fffffffffffffff fffffffffffffffe 0 0 0 1 7fffffff ffffffff7fffffff \
         0 7fffffff 0 0 80000000 7ffffffe 0 0 0 ffffffff 1 f 10 1f 3f 0 0",
    ),
    // div a0, a0, a1
    (
        0x02b5_4533,
        "ffffffffffffffff ffffffffffffffff ffffffffffffffff ffffffffffffffff 8000000000000000 \
         8000000000000000 c000000000000000 8000000000000001 1 1 ffffffffffffffff 0 1 \
         ffffffffffffffff ffffffffffffffff 0 0 0 80000000 ffffffffffffffff ffffffff80000000 0 \
         1 ffffffffffffffff ffffffffffffffff ffffffff 1 1 0 1 fbdef7bdef7bdef8 \
         fc00000000000001 208208208208208 fffffffffe000001 1 0",
    ),
    // divu a0, a0, a1
    (
        0x02b5_5533,
        "ffffffffffffffff ffffffffffffffff ffffffffffffffff ffffffffffffffff 0 \
         8000000000000000 4000000000000000 0 1 1 1 0 1 0 ffffffffffffffff 0 7fffffffffffffff \
         1ffffffff 0 ffffffffffffffff 0 0 1 0 200000003 ffffffff 1 1 ffffffff 1 \
         421084210842108 400000000000000 208208208208208 3fffffffe000000 1 0",
    ),
    // rem a0, a0, a1
    (
        0x02b5_6533,
        "0 1 ffffffffffffffff 8000000000000000 0 0 0 0 0 0 ffffffffffffffff 7ffffffffffffffe \
         0 0 0 0 ffffffffffffffff fffffffffffffffe 0 ffffffff80000000 0 7fffffff 0 0 \
         fffffffffffffffe 0 0 1 ffffffff80000000 0 fffffffffffffff9 ffffffffffffffe1 7 \
         ffffffffffffffc1 80000000 1",
    ),
    // remu a0, a0, a1
    (
        0x02b5_7533,
        "0 1 ffffffffffffffff 8000000000000000 8000000000000000 0 0 7fffffffffffffff 0 0 1 \
         7ffffffffffffffe 0 1 0 0 1 7ffffffe ffffffff80000000 ffffffff80000000 80000000 \
         7fffffff 0 80000001 2 0 0 1 80000000 0 9 1 7 1 80000000 1",
    ),
    // addw a0, a0, a1
    (
        0x00b5_053b,
        "0 1 ffffffffffffffff 0 ffffffffffffffff 1 2 fffffffffffffffe fffffffffffffffe 0 \
         ffffffffffffffff ffffffffffffffff fffffffffffffffe 0 0 ffffffffffffffff 1 7ffffffe \
         7fffffff ffffffff80000000 7fffffff ffffffffffffffff 0 0 fffffffffffffffe 0 \
         fffffffffffffffe ffffffffffffffff ffffffff80000000 2 20 21 3e ffffffff80000041 \
         ffffffff80000002 0",
    ),
    // subw a0, a0, a1
    (
        0x40b5_053b,
        "0 1 ffffffffffffffff 0 1 ffffffffffffffff fffffffffffffffe 0 0 0 1 fffffffffffffffd \
         0 2 fffffffffffffffe 1 fffffffffffffffd 7ffffffe ffffffff80000001 ffffffff80000000 \
         ffffffff80000001 ffffffffffffffff 0 2 0 fffffffffffffffe 0 1 ffffffff80000000 0 \
         ffffffffffffffe2 ffffffffffffffe1 ffffffffffffffc0 7fffffc1 ffffffff80000000 2",
    ),
    // sllw a0, a0, a1
    (
        0x00b5_153b,
        "0 1 ffffffffffffffff 0 0 0 0 ffffffff80000000 ffffffff80000000 0 0 fffffffffffffffc \
         ffffffff80000000 ffffffff80000000 fffffffffffffffe 0 fffffffffffffffc \
         fffffffffffffffe 0 ffffffff80000000 0 7fffffff ffffffff80000000 ffffffff80000000 \
         ffffffff80000000 fffffffffffffffe ffffffff80000000 0 ffffffff80000000 2 \
         ffffffff80000000 1 ffffffff80000000 ffffffff80000001 2 ffffffff80000000",
    ),
    // srlw a0, a0, a1
    (
        0x00b5_553b,
        "0 1 ffffffffffffffff 0 0 0 0 1 1 0 0 7fffffff 1 0 7fffffff 0 3fffffff \
         fffffffffffffffe 1 ffffffff80000000 1 7fffffff ffffffff80000000 1 0 7fffffff 1 0 \
         ffffffff80000000 0 0 1 1 ffffffff80000001 0 0",
    ),
    // sraw a0, a0, a1
    (
        0x40b5_553b,
        "0 1 ffffffffffffffff 0 0 0 0 ffffffffffffffff ffffffffffffffff 0 0 ffffffffffffffff \
         ffffffffffffffff 0 ffffffffffffffff 0 ffffffffffffffff fffffffffffffffe \
         ffffffffffffffff ffffffff80000000 ffffffffffffffff 7fffffff ffffffff80000000 \
         ffffffffffffffff 0 ffffffffffffffff ffffffffffffffff 0 ffffffff80000000 0 0 1 \
         ffffffffffffffff ffffffff80000001 0 0",
    ),
    // mulw a0, a0, a1
    (
        0x02b5_053b,
        "0 0 0 0 0 0 0 1 1 0 0 fffffffffffffffe 1 ffffffffffffffff ffffffffffffffff 0 \
         fffffffffffffffe 0 ffffffff80000000 0 ffffffff80000000 ffffffff80000000 0 \
         ffffffffffffffff 1 ffffffffffffffff 1 0 0 1 1f 20 ffffffffffffffc1 40 \
         ffffffff80000001 ffffffffffffffff",
    ),
    // divw a0, a0, a1
    (
        0x02b5_453b,
        "ffffffffffffffff ffffffffffffffff ffffffffffffffff ffffffffffffffff 0 0 0 1 1 \
         ffffffffffffffff 0 fffffffffffffffe 1 ffffffffffffffff ffffffffffffffff 0 0 0 \
         ffffffff80000000 ffffffffffffffff ffffffff80000000 0 1 ffffffffffffffff 1 \
         ffffffffffffffff 1 0 ffffffffffffffff 1 0 0 0 fffffffffe000001 0 ffffffffffffffff",
    ),
    // divuw a0, a0, a1
    (
        0x02b5_553b,
        "ffffffffffffffff ffffffffffffffff ffffffffffffffff ffffffffffffffff 0 0 0 1 1 \
         ffffffffffffffff 0 fffffffffffffffe 1 0 ffffffffffffffff 0 7fffffff 1 0 \
         ffffffffffffffff 0 0 1 1 1 ffffffffffffffff 1 0 ffffffffffffffff 1 0 0 4104104 \
         2000000 0 0",
    ),
    // remw a0, a0, a1
    (
        0x02b5_653b,
        "0 1 ffffffffffffffff 0 0 0 0 0 0 0 0 0 0 0 0 0 ffffffffffffffff fffffffffffffffe 0 \
         ffffffff80000000 0 7fffffff 0 0 0 0 0 0 ffffffff80000000 0 1 1 ffffffffffffffff \
         ffffffffffffffc1 1 0",
    ),
    // remuw a0, a0, a1
    (
        0x02b5_753b,
        "0 1 ffffffffffffffff 0 0 0 0 0 0 0 0 0 0 1 0 0 1 7ffffffe ffffffff80000000 \
         ffffffff80000000 ffffffff80000000 7fffffff 0 2 0 0 0 0 ffffffff80000000 0 1 1 3 1 1 \
         1",
    ),
];

/// Words of operations on a0 and an immediate, and what a0 holds then, for each number.
const ON_IMMEDIATES: [(u32, &str); 29] = [
    // addi a0, a0, -2048
    (
        0x8005_0513,
        "fffffffffffff800 fffffffffffff801 fffffffffffff7ff fffffffffffff802 fffffffffffff7fe \
         7ffff7ff 7ffff800 7ffff801 ffffffff7ffff800 ffffffff7ffff7ff ffffffff7ffff801 \
         fffff7ff fffff800 fffff801 7ffffffffffff7ff 7ffffffffffff800 7ffffffffffff801 \
         7ffffffffffff7fe",
    ),
    // addi a0, a0, 2047
    (
        0x7ff5_0513,
        "7ff 800 7fe 801 7fd 800007fe 800007ff 80000800 ffffffff800007ff ffffffff800007fe \
         ffffffff80000800 1000007fe 1000007ff 100000800 80000000000007fe 80000000000007ff \
         8000000000000800 80000000000007fd",
    ),
    // slti a0, a0, -2048
    (0x8005_2513, "0 0 0 0 0 0 0 0 1 1 1 0 0 0 0 1 1 0"),
    // slti a0, a0, 2047
    (0x7ff5_2513, "1 1 1 1 1 0 0 0 1 1 1 0 0 0 0 1 1 0"),
    // sltiu a0, a0, -2048
    (0x8005_3513, "1 1 0 1 0 1 1 1 1 1 1 1 1 1 1 1 1 1"),
    // sltiu a0, a0, 2047
    (0x7ff5_3513, "1 1 0 1 0 0 0 0 0 0 0 0 0 0 0 0 0 0"),
    // xori a0, a0, -2048
    (
        0x8005_4513,
        "fffffffffffff800 fffffffffffff801 7ff fffffffffffff802 7fe ffffffff800007ff \
         ffffffff7ffff800 ffffffff7ffff801 7ffff800 800007ff 7ffff801 ffffffff000007ff \
         fffffffefffff800 fffffffefffff801 80000000000007ff 7ffffffffffff800 7ffffffffffff801 \
         80000000000007fe",
    ),
    // xori a0, a0, 2047
    (
        0x7ff5_4513,
        "7ff 7fe fffffffffffff800 7fd fffffffffffff801 7ffff800 800007ff 800007fe \
         ffffffff800007ff ffffffff7ffff800 ffffffff800007fe fffff800 1000007ff 1000007fe \
         7ffffffffffff800 80000000000007ff 80000000000007fe 7ffffffffffff801",
    ),
    // ori a0, a0, -2048
    (
        0x8005_6513,
        "fffffffffffff800 fffffffffffff801 ffffffffffffffff fffffffffffff802 fffffffffffffffe \
         ffffffffffffffff fffffffffffff800 fffffffffffff801 fffffffffffff800 ffffffffffffffff \
         fffffffffffff801 ffffffffffffffff fffffffffffff800 fffffffffffff801 ffffffffffffffff \
         fffffffffffff800 fffffffffffff801 fffffffffffffffe",
    ),
    // ori a0, a0, 2047
    (
        0x7ff5_6513,
        "7ff 7ff ffffffffffffffff 7ff ffffffffffffffff 7fffffff 800007ff 800007ff \
         ffffffff800007ff ffffffff7fffffff ffffffff800007ff ffffffff 1000007ff 1000007ff \
         7fffffffffffffff 80000000000007ff 80000000000007ff 7fffffffffffffff",
    ),
    // andi a0, a0, -2048
    (
        0x8005_7513,
        "0 0 fffffffffffff800 0 fffffffffffff800 7ffff800 80000000 80000000 ffffffff80000000 \
         ffffffff7ffff800 ffffffff80000000 fffff800 100000000 100000000 7ffffffffffff800 \
         8000000000000000 8000000000000000 7ffffffffffff800",
    ),
    // andi a0, a0, 2047
    (
        0x7ff5_7513,
        "0 1 7ff 2 7fe 7ff 0 1 0 7ff 1 7ff 0 1 7ff 0 1 7fe",
    ),
    // addiw a0, a0, -2048
    (
        0x8005_051b,
        "fffffffffffff800 fffffffffffff801 fffffffffffff7ff fffffffffffff802 fffffffffffff7fe \
         7ffff7ff 7ffff800 7ffff801 7ffff800 7ffff7ff 7ffff801 fffffffffffff7ff \
         fffffffffffff800 fffffffffffff801 fffffffffffff7ff fffffffffffff800 fffffffffffff801 \
         fffffffffffff7fe",
    ),
    // addiw a0, a0, 2047
    (
        0x7ff5_051b,
        "7ff 800 7fe 801 7fd ffffffff800007fe ffffffff800007ff ffffffff80000800 \
         ffffffff800007ff ffffffff800007fe ffffffff80000800 7fe 7ff 800 7fe 7ff 800 7fd",
    ),
    // slli a0, a0, 0
    (
        0x0005_1513,
        "0 1 ffffffffffffffff 2 fffffffffffffffe 7fffffff 80000000 80000001 ffffffff80000000 \
         ffffffff7fffffff ffffffff80000001 ffffffff 100000000 100000001 7fffffffffffffff \
         8000000000000000 8000000000000001 7ffffffffffffffe",
    ),
    // slli a0, a0, 32
    (
        0x0205_1513,
        "0 100000000 ffffffff00000000 200000000 fffffffe00000000 7fffffff00000000 \
         8000000000000000 8000000100000000 8000000000000000 7fffffff00000000 8000000100000000 \
         ffffffff00000000 0 100000000 ffffffff00000000 0 100000000 fffffffe00000000",
    ),
    // slli a0, a0, 63
    (
        0x03f5_1513,
        "0 8000000000000000 8000000000000000 0 0 8000000000000000 0 8000000000000000 0 \
         8000000000000000 8000000000000000 8000000000000000 0 8000000000000000 \
         8000000000000000 0 8000000000000000 0",
    ),
    // srli a0, a0, 1
    (
        0x0015_5513,
        "0 0 7fffffffffffffff 1 7fffffffffffffff 3fffffff 40000000 40000000 7fffffffc0000000 \
         7fffffffbfffffff 7fffffffc0000000 7fffffff 80000000 80000000 3fffffffffffffff \
         4000000000000000 4000000000000000 3fffffffffffffff",
    ),
    // srli a0, a0, 32
    (
        0x0205_5513,
        "0 0 ffffffff 0 ffffffff 0 0 0 ffffffff ffffffff ffffffff 0 1 1 7fffffff 80000000 \
         80000000 7fffffff",
    ),
    // srli a0, a0, 63
    (0x03f5_5513, "0 0 1 0 1 0 0 0 1 1 1 0 0 0 0 1 1 0"),
    // srai a0, a0, 1
    (
        0x4015_5513,
        "0 0 ffffffffffffffff 1 ffffffffffffffff 3fffffff 40000000 40000000 ffffffffc0000000 \
         ffffffffbfffffff ffffffffc0000000 7fffffff 80000000 80000000 3fffffffffffffff \
         c000000000000000 c000000000000000 3fffffffffffffff",
    ),
    // srai a0, a0, 32
    (
        0x4205_5513,
        "0 0 ffffffffffffffff 0 ffffffffffffffff 0 0 0 ffffffffffffffff ffffffffffffffff \
         ffffffffffffffff 0 1 1 7fffffff ffffffff80000000 ffffffff80000000 7fffffff",
    ),
    // srai a0, a0, 63
    (
        0x43f5_5513,
        "0 0 ffffffffffffffff 0 ffffffffffffffff 0 0 0 ffffffffffffffff ffffffffffffffff \
         ffffffffffffffff 0 0 0 0 ffffffffffffffff ffffffffffffffff 0",
    ),
    // slliw a0, a0, 0
    (
        0x0005_151b,
        "0 1 ffffffffffffffff 2 fffffffffffffffe 7fffffff ffffffff80000000 ffffffff80000001 \
         ffffffff80000000 7fffffff ffffffff80000001 ffffffffffffffff 0 1 ffffffffffffffff 0 1 \
         fffffffffffffffe",
    ),
    // slliw a0, a0, 31
    (
        0x01f5_151b,
        "0 ffffffff80000000 ffffffff80000000 0 0 ffffffff80000000 0 ffffffff80000000 0 \
         ffffffff80000000 ffffffff80000000 ffffffff80000000 0 ffffffff80000000 \
         ffffffff80000000 0 ffffffff80000000 0",
    ),
    // srliw a0, a0, 1
    (
        0x0015_551b,
        "0 0 7fffffff 1 7fffffff 3fffffff 40000000 40000000 40000000 3fffffff 40000000 \
         7fffffff 0 0 7fffffff 0 0 7fffffff",
    ),
    // srliw a0, a0, 31
    (0x01f5_551b, "0 0 1 0 1 0 1 1 1 0 1 1 0 0 1 0 0 1"),
    // sraiw a0, a0, 1
    (
        0x4015_551b,
        "0 0 ffffffffffffffff 1 ffffffffffffffff 3fffffff ffffffffc0000000 ffffffffc0000000 \
         ffffffffc0000000 3fffffff ffffffffc0000000 ffffffffffffffff 0 0 ffffffffffffffff 0 0 \
         ffffffffffffffff",
    ),
    // sraiw a0, a0, 31
    (
        0x41f5_551b,
        "0 0 ffffffffffffffff 0 ffffffffffffffff 0 ffffffffffffffff ffffffffffffffff \
         ffffffffffffffff 0 ffffffffffffffff ffffffffffffffff 0 0 ffffffffffffffff 0 0 \
         ffffffffffffffff",
    ),
];

/// The number of these hexadecimal digits.
fn number_of(digits: &str) -> u64 {
    let mut number = 0;
    for byte in digits.bytes() {
        number = number << 4 | digit_of(byte);
    }
    number
}

/// The number of a hexadecimal digit.
fn digit_of(byte: u8) -> u64 {
    match byte {
        b'0'..=b'9' => u64::from(byte - b'0'),
        b'a'..=b'f' => u64::from(byte - b'a' + 10),
        _ => 0,
    }
}

/// How a call ends that makes the instruction of this word and returns.
fn end_of(word: u32, a0: u64, a1: u64) -> End {
    // ret
    let mut bus = CodeBus::of([word, 0x0000_8067, 0, 0]);
    let mut args = Args::new();
    args.push(a0);
    args.push(a1);
    call(&mut bus, BASE, &args, 0, 2)
}

#[test]
fn operations_on_registers_give_what_the_emulator_gives(rt: HostRuntime) {
    for (word, results) in ON_REGISTERS {
        assert_eq!(rt; results.split_whitespace().count(), PAIRS.len());
        for (digits, (a0, a1)) in results.split_whitespace().zip(PAIRS) {
            let want = End::Returned(number_of(digits));
            assert_eq!(rt; end_of(word, a0, a1), want, "{word} of {a0} and {a1}");
        }
    }
}

#[test]
fn operations_on_immediates_give_what_the_emulator_gives(rt: HostRuntime) {
    for (word, results) in ON_IMMEDIATES {
        assert_eq!(rt; results.split_whitespace().count(), NUMBERS.len());
        for (digits, (a0, a1)) in results.split_whitespace().zip(NUMBERS) {
            let want = End::Returned(number_of(digits));
            assert_eq!(rt; end_of(word, a0, a1), want, "{word} of {a0}");
        }
    }
}
