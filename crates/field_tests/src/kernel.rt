ghost use Rattle.std.specs.Prelude.{◌+◌, ◌≤◌};

use gf_kernel::{mul_add, mul_add_both, mul_into, mul_into_both};
use std::process::Abort;

/// The product of two bytes, bit by bit: each bit of `b` adds `a` times its power of x.
fn plain_product(a: u8, b: u8) -> u8 {
    let mut product = 0;
    let mut shifted = u16::from(a);
    for place in 0..8u32 {
        if (b >> place) & 1 == 1 {
            product ^= shifted;
        }
        shifted <<= 1;
        if shifted >= 0x100 {
            shifted ^= 0x11d;
        }
    }
    (product & 0xff) as u8
}

/// Does each call to the bytes of a larger row from `from` on, and compares all of the row.
fn check_calls(rt: &impl Abort, from: usize, length: usize, c: u8)
    requires { from + length ≤ 200 }
{
    let d = c ^ 0x53;
    let mut src = [0u8; 200];
    let mut before = [0u8; 200];
    for i in 0..200u8 {
        src[i as usize] = i.wrapping_mul(37).wrapping_add(200);
        before[i as usize] = i.wrapping_mul(91).wrapping_add(7);
    }
    let (mut added, mut written) = (before, before);
    let (mut first_added, mut first_written) = (before, before);
    let (mut second_added, mut second_written) = (before, before);
    let to = from + length;
    let bytes = &src[..length];
    mul_add(&mut added[from..to], bytes, c);
    mul_into(&mut written[from..to], bytes, c);
    mul_add_both(
        &mut first_added[from..to],
        &mut second_added[from..to],
        bytes,
        c,
        d,
    );
    mul_into_both(
        &mut first_written[from..to],
        &mut second_written[from..to],
        bytes,
        c,
        d,
    );
    for i in 0..200 {
        let old = before[i];
        let mut expected = [old; 4];
        if from <= i && i < to {
            let product = plain_product(c, src[i - from]);
            let other = plain_product(d, src[i - from]);
            expected = [old ^ product, product, old ^ other, other];
        }
        assert_eq!(rt;
            [added[i], written[i], second_added[i], second_written[i]],
            expected
        );
        assert_eq!(rt;
            [first_added[i], first_written[i]],
            [added[i], written[i]],
            "at {i} of {length}"
        );
    }
}

#[test]
fn rows_are_the_plain_formula(rt: HostRuntime) {
    for c in [0, 1, 2, 0x80, 0xff] {
        for length in 0..=130 {
            check_calls(&rt, 2 * (length % 8) + 1, length, c);
        }
    }
}
