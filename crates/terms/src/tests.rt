use crate::faults::{BookFault, ClosingFigure, Fault, SourceFault};
use crate::points::{Kind, Side, UnknownLetter};
use crate::refusals::{Part, Refusal};
use crate::rounding::{to_nearest, to_nearest_signed};
use std::num::NonZeroU64;
use std::test::Fail;

fn divisor(value: u64) -> Result<NonZeroU64, Fail> {
    Ok(NonZeroU64::new(value).ok_or("not a divisor")?)
}

#[test]
fn a_half_goes_up_and_less_goes_down(rt: HostRuntime) -> Result<(), Fail> {
    let by = divisor(10)?;
    assert_eq!(rt; to_nearest(14, by), 1);
    assert_eq!(rt; to_nearest(15, by), 2);
    assert_eq!(rt; to_nearest(16, by), 2);
    assert_eq!(rt; to_nearest(0, by), 0);
    Ok(())
}

#[test]
fn a_signed_half_goes_away_from_zero(rt: HostRuntime) -> Result<(), Fail> {
    let by = divisor(10)?;
    assert_eq!(rt; to_nearest_signed(15, by), 2);
    assert_eq!(rt; to_nearest_signed(-15, by), -2);
    assert_eq!(rt; to_nearest_signed(-14, by), -1);
    let one = divisor(1)?;
    assert_eq!(rt; to_nearest_signed(i64::MIN, one), i64::MIN);
    Ok(())
}

#[test]
fn the_largest_numbers_round_without_wrapping(rt: HostRuntime) -> Result<(), Fail> {
    let one = divisor(1)?;
    let most = divisor(u64::MAX)?;
    assert_eq!(rt; to_nearest(u64::MAX, one), u64::MAX);
    assert_eq!(rt; to_nearest(u64::MAX, most), 1);
    assert_eq!(rt; to_nearest(u64::MAX / 2, most), 0);
    Ok(())
}

#[test]
fn nothing_is_divided_by_zero(rt: HostRuntime) {
    assert_eq!(rt; NonZeroU64::new(0).is_some(), false);
}

#[test]
fn letters_go_both_ways(rt: HostRuntime) {
    assert_eq!(rt; Side::try_from('X'), Ok(Side::Exit));
    assert_eq!(rt; Side::try_from('S'), Err(UnknownLetter('S')));
    assert_eq!(rt; Kind::try_from('I'), Ok(Kind::Interconnector));
    assert_eq!(rt; Kind::try_from('i'), Err(UnknownLetter('i')));
    assert_eq!(rt; char::from(Kind::Local), 'L');
    assert_eq!(rt; char::from(Side::Entry), 'E');
}

#[test]
fn storage_stands_on_both_sides(rt: HostRuntime) {
    assert!(rt; Kind::Storage.is_of(Side::Entry));
    assert!(rt; Kind::Storage.is_of(Side::Exit));
    assert!(rt; !Kind::Local.is_of(Side::Entry));
    assert!(rt; !Kind::Production.is_of(Side::Exit));
}

#[test]
fn a_fault_inside_another_keeps_its_refusal(rt: HostRuntime) {
    let inner = SourceFault::BadFigure(7);
    assert_eq!(rt; BookFault::Source(inner).refusal(), inner.refusal());
    assert_eq!(rt;
        inner.refusal(),
        Refusal {
            number: 19,
            part: Part::Source,
            place: 7,
        }
    );
    assert_eq!(rt;
        BookFault::NoStation.refusal(),
        Refusal {
            number: 3,
            part: Part::Book,
            place: 0,
        }
    );
    assert_eq!(rt;
        SourceFault::NoStation.refusal(),
        Refusal {
            number: 3,
            part: Part::Source,
            place: 0,
        }
    );
    assert_eq!(rt;
        BookFault::OutOfRange(ClosingFigure::Index).refusal(),
        Refusal {
            number: 9,
            part: Part::Book,
            place: 12,
        }
    );
}
