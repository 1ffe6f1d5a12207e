use crate::faults::SheetFault;
use crate::numbers::{number, signed};
use crate::raw::{Lines, line_at};
use crate::reading::{check_sheet, read_close};
use crate::words::words_of;
use revenue::figures::Figures;
use revenue::units::{HundredThousandths, HundredthsOfPercent, MegawattHours, ParasPerKwh};
use std::alloc::Global;
use std::test::Fail;
use terms::faults::{BookFault, ClosingFigure, Fault};
use terms::measures::Dinars;
use terms::refusals::{Part, Refusal};

// What reading the first line of a sheet as line 7 comes back with.
fn first(heap: Global, sheet: &[u8]) -> Result<Figures, SheetFault> {
    let line = line_at(sheet, 0).ok_or(SheetFault::NoMemory)?;
    read_close(heap, line, 7)
}

// The number and the place with which it is refused.
fn refused(heap: Global, sheet: &[u8]) -> Option<(u32, usize)> {
    let fault = first(heap, sheet).err()?;
    Some((fault.number(), fault.place()))
}

// The line at a place: where the next begins, how many bytes it has, and whether it is ended.
fn cut(sheet: &[u8], at: usize) -> Option<(usize, usize, bool)> {
    let line = line_at(sheet, at)?;
    Some((line.next(), line.bytes().len(), line.ended()))
}

#[test]
fn a_line_feed_ends_a_line_and_bytes_after_the_last_are_one_more(rt: HostRuntime) {
    let sheet = b"ab c\n\nlast";
    let cuts = [cut(sheet, 0), cut(sheet, 5), cut(sheet, 6), cut(sheet, 10)];
    assert_eq!(rt;
        cuts,
        [
            Some((5, 4, true)),
            Some((6, 0, true)),
            Some((10, 4, false)),
            None,
        ]
    );
}

#[test]
fn a_sheet_gives_its_lines_in_their_order(rt: HostRuntime) {
    let mut lines = Lines::new(b"ab c\n\nlast");
    let places = [
        lines.next().map(|line| line.place()),
        lines.next().map(|line| line.place()),
        lines.next().map(|line| line.place()),
        lines.next().map(|line| line.place()),
    ];
    assert_eq!(rt; places, [Some(0), Some(5), Some(6), None]);
    assert_eq!(rt;
        [Lines::new(b"ab c\n\nlast").count(), Lines::new(b"").count()],
        [3, 0]
    );
}

#[test]
fn each_space_parts_two_words_and_words_keep_their_places(rt: HostRuntime) -> Result<(), Fail> {
    let line = line_at(b"x\nplan  0 \n", 2).ok_or("the second line")?;
    let words = words_of(rt.alloc(), line)?;
    assert!(rt; words.len() == 4);
    assert_eq!(rt;
        [words[0].at, words[1].at, words[2].at, words[3].at],
        [2, 7, 8, 10]
    );
    assert!(rt;
        words[0].text == b"plan".as_slice()
            && words[1].text == b"".as_slice()
            && words[2].text == b"0".as_slice()
            && words[3].text == b"".as_slice()
    );
    Ok(())
}

#[test]
fn a_number_has_one_to_nine_digits_and_no_0_in_front(rt: HostRuntime) {
    assert_eq!(rt;
        [number(b"0"), number(b"70000"), number(b"999999999")],
        [Some(0), Some(70_000), Some(999_999_999)]
    );
    assert_eq!(rt;
        [
            number(b"1000000000"),
            number(b"007"),
            number(b""),
            number(b"1\t"),
            number(b"-1"),
            number(b"+1"),
        ],
        [None; 6]
    );
}

#[test]
fn a_minus_stands_directly_before_a_number_above_0(rt: HostRuntime) {
    assert_eq!(rt;
        [signed(b"-2000"), signed(b"-999999999"), signed(b"0")],
        [Some(-2000), Some(-999_999_999), Some(0)]
    );
    assert_eq!(rt;
        [signed(b"-0"), signed(b"-01"), signed(b"-"), signed(b"--1")],
        [None; 4]
    );
}

#[test]
fn the_twelve_figures_are_read_in_their_order(rt: HostRuntime) -> Result<(), Fail> {
    let figures = first(
        rt.alloc(),
        b"close 6000 1000 20000 800 1000000 100 350 1500 603 9000 14000 -500\n",
    )?;
    let due = Figures {
        operating: Dinars(6000),
        depreciation: Dinars(1000),
        assets: Dinars(20_000),
        rate: HundredthsOfPercent(800),
        delivered: MegawattHours(1_000_000),
        loss: HundredThousandths(100),
        price: ParasPerKwh(350),
        nonstandard: Dinars(1500),
        other: Dinars(603),
        justified: Dinars(9000),
        realised: Dinars(14_000),
        index: HundredthsOfPercent(-500),
    };
    assert_eq!(rt; figures, due);
    Ok(())
}

#[test]
fn the_first_word_is_judged_before_the_count_and_the_length_before_both(rt: HostRuntime) {
    let heap = rt.alloc();
    let found = [
        refused(heap, b"shut 3"),
        refused(heap, b"shut 3\n"),
        refused(heap, b"\n"),
        refused(heap, b" close 1 2 3 4 5 6 7 8 9 10 11 12\n"),
    ];
    assert_eq!(rt;
        found,
        [Some((23, 7)), Some((20, 7)), Some((20, 7)), Some((20, 7))]
    );
}

#[test]
fn the_count_of_words_is_judged_before_the_numbers(rt: HostRuntime) {
    let heap = rt.alloc();
    let found = [
        refused(heap, b"close\n"),
        refused(heap, b"close 1 2 3 4 5 6 7 8 9 10 x\n"),
        refused(heap, b"close 1 2 3 4 5 6 7 8 9 10 11 12 \n"),
        refused(heap, b"close 1 2 3 4 5 6 7 8 9 10 -11 12\n"),
        refused(heap, b"close  2 3 4 5 6 7 8 9 10 11 12\n"),
    ];
    assert_eq!(rt;
        found,
        [
            Some((22, 7)),
            Some((22, 7)),
            Some((22, 7)),
            Some((21, 7)),
            Some((21, 7)),
        ]
    );
}

#[test]
fn a_line_has_at_most_400_bytes_and_a_sheet_65536(rt: HostRuntime) {
    let mut line = [b'x'; 402];
    line[400] = b'\n';
    let fits = refused(rt.alloc(), &line);
    line[400] = b'x';
    line[401] = b'\n';
    let long = refused(rt.alloc(), &line);
    assert_eq!(rt; (fits, long), (Some((20, 7)), Some((23, 7))));
    let sheet = [b'\n'; 65_537];
    assert_eq!(rt;
        (check_sheet(&sheet[1..65_537]), check_sheet(&sheet)),
        (Ok(()), Err(SheetFault::TooLong(0)))
    );
}

#[test]
fn a_fault_of_the_book_keeps_its_refusal_inside_the_sheets(rt: HostRuntime) {
    let inner = BookFault::OutOfRange(ClosingFigure::Index);
    assert_eq!(rt; SheetFault::Book(inner).refusal(), inner.refusal());
    assert_eq!(rt;
        SheetFault::BadNumber(3).refusal(),
        Refusal {
            number: 21,
            part: Part::Sheet,
            place: 3,
        }
    );
    assert_eq!(rt; SheetFault::NoMemory.number(), 0);
}
