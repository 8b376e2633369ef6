//! Fields that spell numbers.

use crate::fields::spelled;
use crate::halves::{Halves, halves_of};
use crate::part::set_field;
use crate::row::{Form, Formula, Row, row_of};

/// Numbers with their halves. The first three are worked by hand, the others are at the ends of the ranges.
#[rattlefmt::skip]
const HALVES: [(i64, i64, i64); 7] = [
    (0x1ffc, 2, -4), (0x7ff, 0, 2047), (0x800, 1, -2048), (-0x800, 0, -2048), (-0x801, -1, 2047),
    (-0x8000_0800, -0x8_0000, -2048), (0x7fff_f7ff, 0x7_ffff, 2047),
];

#[test]
fn halves_of_numbers(rt: HostRuntime) {
    for (value, high, low) in HALVES {
        assert!(rt; -0x8000_0800 <= value && value < 0x7fff_f800);
        assert_eq!(rt; halves_of(value), Halves { high, low });
    }
}

#[test]
fn words_with_other_immediates(rt: HostRuntime) {
    // `auipc t0`, `addi t0, t0`, `sd zero, 0(t0)`, `beq a0, a1`, `jal ra`, and `auipc t1` with `jr t1`.
    assert_eq!(rt; spelled(Form::Upper, 0x4000, 0x0000_0297), 0x0000_4297);
    assert_eq!(rt; spelled(Form::Upper, 0x1ffc, 0x0000_0297), 0x0000_2297);
    assert_eq!(rt; spelled(Form::Immediate, 0x4000, 0x0002_8293), 0x0002_8293);
    assert_eq!(rt; spelled(Form::Immediate, 0x1ffc, 0x0002_8293), 0xffc2_8293);
    assert_eq!(rt; spelled(Form::Store, 0x1ffc, 0x0002_b023), 0xfe02_be23);
    assert_eq!(rt; spelled(Form::Branch, -4, 0x00b5_0063), 0xfeb5_0ee3);
    assert_eq!(rt; spelled(Form::Branch, 4094, 0x00b5_0063), 0x7eb5_0fe3);
    assert_eq!(rt; spelled(Form::Branch, -4096, 0x00b5_0063), 0x80b5_0063);
    assert_eq!(rt; spelled(Form::Jump, -4, 0x0000_00ef), 0xffdf_f0ef);
    assert_eq!(rt; spelled(Form::Jump, 0xf_fffe, 0x0000_00ef), 0x7fff_f0ef);
    assert_eq!(rt; spelled(Form::Jump, -0x10_0000, 0x0000_00ef), 0x8000_00ef);
    assert_eq!(rt;
        spelled(Form::Pair, 0x1000, 0x0003_0067_0000_0317),
        0x0003_0067_0000_1317
    );
}

/// Types with the numbers from which on and below which their values are.
#[rattlefmt::skip]
const RANGES: [(u32, i128, i128); 6] = [
    (1, -0x8000_0000, 0x1_0000_0000), (16, -4096, 4095), (17, -0x10_0000, 0xf_ffff), (18, -0x8000_0800, 0x7fff_f800),
    (20, -0x8000_0800, 0x7fff_f800), (57, -0x8000_0000, 0x8000_0000),
];

#[test]
fn ranges_of_types(rt: HostRuntime) {
    for (typ, from, to) in RANGES {
        assert_eq!(rt;
            row_of(typ).and_then(|row| row.range),
            Some((from, to)),
            "of {typ}"
        );
    }
    for typ in [0, 26, 27, 28, 43, 44, 45, 58] {
        assert_eq!(rt; row_of(typ), None, "of {typ}");
    }
}

#[test]
fn a_field_of_a_part(rt: HostRuntime) {
    let less = Row {
        formula: Formula::Difference,
        form: Form::Number32,
        range: None,
    };
    let more = Row {
        formula: Formula::Sum,
        form: Form::Number64,
        range: None,
    };
    let mut bytes = [1, 2, 3, 4, 0, 0, 0, 5, 6, 7];
    set_field(&mut bytes, 3, less, 5);
    assert_eq!(rt; bytes, [1, 2, 3, 255, 255, 255, 255, 5, 6, 7]);
    set_field(&mut bytes, 1, more, -0x302);
    assert_eq!(rt; bytes, [1, 0, 0, 255, 255, 255, 255, 5, 6, 7]);
}
