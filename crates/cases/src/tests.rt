use crate::books::{CONSTANT, GROW, PAIRS, PATHS, SPLIT};
use crate::tools::{book_of, fired, flat, live_are};
use host::counts::Counts;
use host::host::Host;
use host::serials::Serials;
use host::types::{Cause, Comparator, Working};
use meaning::answers::Stepped;
use meaning::refusal::{Numbers, Refusal, Site};
use order::banded::Banded;
use order::plain::Plain;
use report::conduct::Ended;
use report::outcome::{Outcome, Refused};
use report::print::{print, print_week};
use run::run::Run;
use std::test::Fail;
use store::flat::Flat;

#[test]
fn shortest_paths(rt: HostRuntime) -> Result<(), Fail> {
    let heap = rt.alloc();
    let book = book_of(heap, &PATHS)?.ok_or("unread")?;
    let Ok(run) = Run::open(heap, book, flat(heap, 64)?, Counts, Banded) else {
        return Err(Fail::new("no memory"));
    };
    let mut run = run;
    let _ = run.hand_in(1, [1, 0, 0]);
    let _ = run.hand_in(2, [1, 4, 2]);
    let _ = run.hand_in(2, [1, 1, 3]);
    let _ = run.hand_in(2, [3, 1, 2]);
    for _ in 0..5 {
        assert_eq!(rt; run.step(), Ok(Stepped::Fired));
    }
    assert_eq!(rt; run.step(), Ok(Stepped::Final));
    assert_eq!(rt; run.roll().get(4), Some(&fired(1, [1, 0, 0, 0])));
    assert_eq!(rt; run.roll().get(5), Some(&fired(3, [5, 2, 0, 0])));
    assert_eq!(rt; run.roll().get(6), Some(&fired(3, [5, 3, 0, 0])));
    assert_eq!(rt; run.roll().get(7), Some(&fired(3, [7, 4, 0, 0])));
    assert_eq!(rt; run.roll().get(8), Some(&fired(2, [8, 6, 0, 0])));
    assert!(rt; live_are(&run, &[1, 2, 3, 4, 5, 7, 8]));
    Ok(())
}

#[test]
fn of_equal_distances_the_first_stays(rt: HostRuntime) -> Result<(), Fail> {
    let heap = rt.alloc();
    let book = book_of(heap, &PATHS)?.ok_or("unread")?;
    let Ok(run) = Run::open(heap, book, flat(heap, 64)?, Counts, Banded) else {
        return Err(Fail::new("no memory"));
    };
    let mut run = run;
    let _ = run.hand_in(3, [1, 0, 0]);
    let _ = run.hand_in(3, [1, 0, 0]);
    assert_eq!(rt; run.step(), Ok(Stepped::Fired));
    assert_eq!(rt; run.step(), Ok(Stepped::Final));
    assert_eq!(rt; run.roll().get(2), Some(&fired(2, [1, 2, 0, 0])));
    assert!(rt; live_are(&run, &[1]));
    Ok(())
}

#[test]
fn four_rows_are_too_few(rt: HostRuntime) -> Result<(), Fail> {
    let heap = rt.alloc();
    let book = book_of(heap, &SPLIT)?.ok_or("unread")?;
    let Ok(run) = Run::open(heap, book, flat(heap, 4)?, Counts, Plain) else {
        return Err(Fail::new("no memory"));
    };
    let mut run = run;
    for value in 1..5 {
        let _ = run.hand_in(1, [value, 0, 0]);
    }
    assert_eq!(rt; run.step(), Err(Refusal::NoRow(Site::Rule(1))));
    assert_eq!(rt; run.step(), Err(Refusal::NoRow(Site::Rule(1))));
    assert!(rt; live_are(&run, &[1, 2, 3, 4]));
    assert_eq!(rt;
        run.hand_in(1, [5, 0, 0]),
        Err(Refusal::NoRow(Site::HandIn))
    );
    Ok(())
}

#[test]
fn five_rows_are_enough(rt: HostRuntime) -> Result<(), Fail> {
    let heap = rt.alloc();
    let book = book_of(heap, &SPLIT)?.ok_or("unread")?;
    let Ok(run) = Run::open(heap, book, flat(heap, 5)?, Counts, Plain) else {
        return Err(Fail::new("no memory"));
    };
    let mut run = run;
    for value in 1..5 {
        let _ = run.hand_in(1, [value, 0, 0]);
    }
    assert_eq!(rt; run.step(), Ok(Stepped::Fired));
    assert!(rt; live_are(&run, &[2, 3, 4, 5, 6]));
    Ok(())
}

#[test]
fn pairs_fire_in_both_orders(rt: HostRuntime) -> Result<(), Fail> {
    let heap = rt.alloc();
    let book = book_of(heap, &PAIRS)?.ok_or("unread")?;
    let Ok(run) = Run::open(heap, book, flat(heap, 4)?, Counts, Plain) else {
        return Err(Fail::new("no memory"));
    };
    let mut run = run;
    let _ = run.hand_in(1, [7, 0, 0]);
    let _ = run.hand_in(1, [7, 0, 0]);
    assert_eq!(rt; run.step(), Ok(Stepped::Fired));
    assert_eq!(rt; run.step(), Ok(Stepped::Fired));
    assert_eq!(rt; run.step(), Ok(Stepped::Final));
    assert_eq!(rt; run.roll().get(2), Some(&fired(1, [1, 2, 0, 0])));
    assert_eq!(rt; run.roll().get(3), Some(&fired(1, [2, 1, 0, 0])));
    Ok(())
}

#[test]
fn serials_compare_and_come_round(rt: HostRuntime) {
    assert!(rt; Serials.compare(Comparator::Less, 999_999, 0));
    assert!(rt; Serials.compare(Comparator::Less, 0, 499_999));
    assert!(rt; !Serials.compare(Comparator::Less, 0, 500_000));
    assert!(rt; !Serials.compare(Comparator::Less, 500_000, 0));
    assert!(rt; !Serials.compare(Comparator::AtMost, 1_000_000, 1_000_000));
    assert!(rt; Serials.compare(Comparator::Equal, 1_000_000, 1_000_000));
    assert_eq!(rt; Serials.work(Working::Sum(999_999, 1)), Ok(0));
    assert_eq!(rt; Serials.work(Working::Difference(0, 1)), Ok(999_999));
    assert_eq!(rt; Serials.work(Working::Copy(1_000_000)), Err(Cause::Operand));
}

#[test]
fn a_sum_beyond_counts_is_refused(rt: HostRuntime) -> Result<(), Fail> {
    let heap = rt.alloc();
    let book = book_of(heap, &GROW)?.ok_or("unread")?;
    let Ok(run) = Run::open(heap, book, flat(heap, 4)?, Counts, Plain) else {
        return Err(Fail::new("no memory"));
    };
    let mut run = run;
    let _ = run.hand_in(1, [2_147_483_647, 0, 0]);
    let Err(refusal) = run.step() else {
        return Err(Fail::new("fired"));
    };
    let numbers = Numbers {
        number: 13,
        rule: 1,
        fact: 1,
        working: 1,
        cause: 2,
    };
    assert_eq!(rt; Numbers::from(refusal), numbers);
    assert!(rt; live_are(&run, &[1]));
    Ok(())
}

#[test]
fn a_constant_that_is_no_serial_is_refused(rt: HostRuntime) -> Result<(), Fail> {
    let heap = rt.alloc();
    let book = book_of(heap, &CONSTANT)?.ok_or("unread")?;
    let Ok(run) = Run::open(heap, book, flat(heap, 4)?, Serials, Plain) else {
        return Err(Fail::new("no memory"));
    };
    let mut run = run;
    let _ = run.hand_in(1, [0, 0, 0]);
    let Err(refusal) = run.step() else {
        return Err(Fail::new("fired"));
    };
    let numbers = Numbers {
        number: 13,
        rule: 1,
        fact: 1,
        working: 1,
        cause: 1,
    };
    assert_eq!(rt; Numbers::from(refusal), numbers);
    assert_eq!(rt; run.hand_in(2, [1_000_000, 0, 0]), Err(Refusal::NotAValue));
    Ok(())
}

#[test]
fn a_roll_takes_1024_entries(rt: HostRuntime) -> Result<(), Fail> {
    let heap = rt.alloc();
    let book = book_of(heap, &PAIRS)?.ok_or("unread")?;
    let Ok(run) = Run::open(heap, book, flat(heap, 4096)?, Counts, Plain) else {
        return Err(Fail::new("no memory"));
    };
    let mut run = run;
    for _ in 0..1023 {
        assert!(rt; run.hand_in(1, [1, 0, 0]).is_ok());
    }
    assert_eq!(rt; run.hand_in(1, [1, 0, 0]), Ok(1024));
    assert_eq!(rt;
        run.hand_in(1, [1, 0, 0]),
        Err(Refusal::RollFull(Site::HandIn))
    );
    assert_eq!(rt; run.step(), Err(Refusal::RollFull(Site::Rule(1))));
    Ok(())
}

#[test]
fn a_working_is_made_anew_of_its_operands(rt: HostRuntime) {
    let tens = |n: u8| u32::from(n) * 10;
    assert_eq!(rt; Working::Copy(7).map(tens), Working::Copy(70));
    assert_eq!(rt; Working::Sum(7, 9).map(tens), Working::Sum(70, 90));
    assert_eq!(rt;
        Working::Difference(7, 9).map(tens),
        Working::Difference(70, 90)
    );
}

#[test]
fn each_operand_of_a_working_is_tested(rt: HostRuntime) {
    let large = |n: u8| n > 4;
    assert!(rt; Working::Copy(5).all(large));
    assert!(rt; !Working::Copy(4).all(large));
    assert!(rt; Working::Sum(5, 6).all(large));
    assert!(rt; !Working::Sum(4, 6).all(large));
    assert!(rt; !Working::Difference(5, 4).all(large));
}

#[test]
fn a_run_that_ended_is_printed(rt: HostRuntime) -> Result<(), Fail> {
    let heap = rt.alloc();
    let book = book_of(heap, &PAIRS)?.ok_or("unread")?;
    let Ok(run) = Run::open(heap, book, flat(heap, 4)?, Counts, Plain) else {
        return Err(Fail::new("no memory"));
    };
    let mut run = run;
    let _ = run.hand_in(1, [7, 0, 0]);
    let _ = run.hand_in(1, [-2, 0, 0]);
    let outcome = Outcome::from(run.run(9).ending);
    let ended = Ended { run, outcome };
    let lines: &[u8] =
        b"T 1 1 7 0 0\nT 2 1 -2 0 0\nF 1 1 2 0 0\nF 1 2 1 0 0\nS 1 1 7 0 0\nS 2 1 -2 0 0\nfinal\n";
    let mut out = Vec::new(heap);
    print(&mut out, &ended)?;
    assert_eq!(rt; out.as_slice(), lines);
    let mut again = Vec::new(heap);
    print_week(&mut again, &Ok(ended))?;
    assert_eq!(rt; again.as_slice(), lines);
    Ok(())
}

#[test]
fn a_refused_reading_is_printed(rt: HostRuntime) -> Result<(), Fail> {
    let refused = Refused {
        number: 3,
        place: 8180,
        fact: 0,
        working: 0,
        cause: 0,
    };
    let line: &[u8] = b"refused 3 8180 0 0 0\n";
    let mut out = Vec::new(rt.alloc());
    let week: Result<Ended<Flat, Counts, Plain>, Refused> = Err(refused);
    print_week(&mut out, &week)?;
    assert_eq!(rt; out.as_slice(), line);
    Ok(())
}
