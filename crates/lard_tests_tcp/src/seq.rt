//! Sums, offsets and windows worked out by hand, on both sides of where the numbers begin again.

use lard_seq::Seq;

/// A number, how far behind it the other one stands, and that one.
const SUMS: &[(u32, u32, u32)] = &[
    (0, 0, 0),
    (1000, 1, 1001),
    (0xffff_ffff, 1, 0),
    (0xffff_fff0, 32, 16),
    (5, 0xffff_ffff, 4),
    (0x8000_0000, 0x8000_0000, 0),
];

fn is_sum(row: &(u32, u32, u32)) -> bool {
    let &(base, n, sum) = row;
    Seq(base).add(n) == Seq(sum) && Seq(sum).offset_from(Seq(base)) == n
}

#[test]
fn numbers_begin_again(rt: HostRuntime) {
    let wrong = SUMS.iter().position(|row| !is_sum(row));
    assert_eq!(rt; wrong, None);
}

/// A number, the first one of a window, how many it has, and whether the number is among them.
const WINDOWS: &[(u32, u32, u32, bool)] = &[
    (100, 100, 0, false),
    (100, 100, 1, true),
    (101, 100, 1, false),
    (99, 100, 0xffff_ffff, false),
    (98, 100, 0xffff_ffff, true),
    (3, 0xffff_fffe, 6, true),
    (4, 0xffff_fffe, 6, false),
    (0xffff_fffd, 0xffff_fffe, 6, false),
];

fn is_right(row: &(u32, u32, u32, bool)) -> bool {
    let &(number, first, size, inside) = row;
    Seq(number).in_window(Seq(first), size) == inside
}

#[test]
fn windows_wrap(rt: HostRuntime) {
    let wrong = WINDOWS.iter().position(|row| !is_right(row));
    assert_eq!(rt; wrong, None);
}
