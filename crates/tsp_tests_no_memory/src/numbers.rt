//! The calls of `main.rt` on number words, distances, statuses, streams and numbers of
//! certificates, which take no memory.

use tsp_bound::{Duals, Multipliers, Potentials};
use tsp_format::Layout;
use tsp_io::Watched;
use tsp_judge::{ReadFault, RunFault, WriteFault, status_of};
use tsp_number::{
    Decimal, InSpace, NumberFault, PlanePoint, Point, att, ceil_2d, euc_2d, euc_3d, front_decimal,
    front_whole, man_2d, man_3d, max_2d, max_3d, parse_decimal, parse_whole, write_decimal,
};

/// Whether each call has the answer that is wanted.
pub(crate) fn are_right() -> bool {
    are_words() && are_distances() && are_distances_in_space() && are_others() && are_statuses()
}

/// The calls for number words.
fn are_words() -> bool {
    let Ok(number) = parse_decimal(b"1.5") else {
        return false;
    };
    number.count() == 1_500_000_000
        && write_decimal(number).as_slice() == b"1.5".as_slice()
        && parse_whole(b"-7", -10, 10) == Ok(-7)
        && parse_whole(b"11", -10, 10) == Err(NumberFault::OutOfRange)
        && front_whole(b"12 7") == Some((12, 2))
        && front_decimal(b"1.5 7") == Some((number, 3))
}

/// The five distances between two ends of a rectangle with the sides 3 and 4.
fn are_distances() -> bool {
    let (Some(zero), Some(three), Some(four)) = (
        Decimal::of_count(0),
        Decimal::of_count(3_000_000_000),
        Decimal::of_count(4_000_000_000),
    ) else {
        return false;
    };
    let ends = [
        PlanePoint { x: zero, y: zero }.in_space(),
        PlanePoint { x: three, y: four }.in_space(),
    ];
    euc_2d(ends[0], ends[1]) == 5
        && ceil_2d(ends[0], ends[1]) == 5
        && att(ends[0], ends[1]) == 2
        && man_2d(ends[0], ends[1]) == 7
        && max_2d(ends[0], ends[1]) == 4
}

/// The three distances in space between two ends of a box with the sides 2, 3 and 6.
fn are_distances_in_space() -> bool {
    let (Some(zero), Some(two), Some(three), Some(six)) = (
        Decimal::of_count(0),
        Decimal::of_count(2_000_000_000),
        Decimal::of_count(3_000_000_000),
        Decimal::of_count(6_000_000_000),
    ) else {
        return false;
    };
    let ends = [
        Point {
            x: zero,
            y: zero,
            z: zero,
        },
        Point {
            x: two,
            y: three,
            z: six,
        },
    ];
    euc_3d(ends[0], ends[1]) == 7 && man_3d(ends[0], ends[1]) == 11 && max_3d(ends[0], ends[1]) == 6
}

/// The exit statuses: accepted, rejected, a device's failure, out of memory.
fn are_statuses() -> bool {
    status_of(&Ok(true)) == 0
        && status_of(&Ok(false)) == 1
        && status_of(&Err(RunFault::WrongKind)) == 2
        && status_of(&Err(RunFault::OutOfMemory)) == 3
        && status_of(&Err(RunFault::Write(WriteFault::Device))) == 5
        && status_of(&Err(RunFault::File {
            file: 1,
            fault: ReadFault::TooLong,
        })) == 2
}

/// Values, streams and certificates.
fn are_others() -> bool {
    let watched = Watched::new(b"text".as_slice());
    let fresh = !watched.failed();
    fresh
        && watched.into_inner() == b"text".as_slice()
        && Layout::of_word("UPPER_ROW") == Some(Layout::UpperRow)
        && Potentials::new(1, &[0, 2]).is_some()
        && Potentials::new(0, &[0, 2]).is_none()
        && Duals::new(1, &[0], &[0, 1]).is_none()
        && Multipliers::new(&[(1, 2, 3)]).is_some()
}
