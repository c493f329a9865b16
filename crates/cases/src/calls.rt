use crate::books::{GROW, HALT, PAIRS, PATHS, SPLIT};
use crate::tools::{book_of, due, fact, fired, flat, stands_at};
use host::counts::Counts;
use host::types::Cause;
use meaning::answers::{Ending, Ran, Sight, Stepped};
use meaning::refusal::{Refusal, Site, WorkingFault};
use order::banded::Banded;
use order::plain::Plain;
use run::open::BlankRoll;
use run::run::Run;
use std::test::Fail;
use store::Store;

#[test]
fn look_says_final_and_what_is_due(rt: HostRuntime) -> Result<(), Fail> {
    let heap = rt.alloc();
    let book = book_of(heap, &SPLIT)?.ok_or("unread")?;
    let roll = BlankRoll::claim(heap)?;
    let mut run = Run::start(roll, book, flat(heap, 3)?, Counts, Plain);
    assert_eq!(rt; run.look(), Ok(Sight::Final));
    let _ = run.hand_in(1, [2, 0, 0]);
    let _ = run.hand_in(1, [1, 0, 0]);
    assert_eq!(rt; run.look(), due(1, [2, 0, 0, 0], None));
    assert_eq!(rt; run.look(), due(1, [2, 0, 0, 0], None));
    assert!(rt; stands_at(&run, 2, 3, &[1, 2]));
    assert_eq!(rt; run.step(), Ok(Stepped::Fired));
    assert_eq!(rt; run.roll().get(2), Some(&fired(1, [2, 0, 0, 0])));
    assert!(rt; stands_at(&run, 3, 5, &[1, 3, 4]));
    Ok(())
}

#[test]
fn look_says_that_the_due_instance_finds_no_row(rt: HostRuntime) -> Result<(), Fail> {
    let heap = rt.alloc();
    let book = book_of(heap, &SPLIT)?.ok_or("unread")?;
    let roll = BlankRoll::claim(heap)?;
    let mut run = Run::start(roll, book, flat(heap, 1)?, Counts, Plain);
    let _ = run.hand_in(1, [7, 0, 0]);
    let why = Refusal::NoRow(Site::Rule(1));
    assert_eq!(rt; run.look(), due(1, [1, 0, 0, 0], Some(why)));
    assert_eq!(rt; run.step(), Err(why));
    assert_eq!(rt; run.look(), due(1, [1, 0, 0, 0], Some(why)));
    assert!(rt; stands_at(&run, 1, 2, &[1]));
    Ok(())
}

#[test]
fn look_says_why_a_body_cannot_be_worked_out(rt: HostRuntime) -> Result<(), Fail> {
    let heap = rt.alloc();
    let book = book_of(heap, &GROW)?.ok_or("unread")?;
    let roll = BlankRoll::claim(heap)?;
    let mut run = Run::start(roll, book, flat(heap, 4)?, Counts, Plain);
    let _ = run.hand_in(1, [2_147_483_647, 0, 0]);
    let fault = WorkingFault {
        fact: 1,
        working: 1,
        cause: Cause::Outcome,
    };
    let why = Refusal::Body { rule: 1, fault };
    assert_eq!(rt; run.look(), due(1, [1, 0, 0, 0], Some(why)));
    assert!(rt; stands_at(&run, 1, 2, &[1]));
    Ok(())
}

#[test]
fn a_failed_run_refuses(rt: HostRuntime) -> Result<(), Fail> {
    let heap = rt.alloc();
    let book = book_of(heap, &HALT)?.ok_or("unread")?;
    let roll = BlankRoll::claim(heap)?;
    let mut run = Run::start(roll, book, flat(heap, 4)?, Counts, Plain);
    let _ = run.hand_in(2, [0, 0, 0]);
    assert!(rt; !run.has_failed());
    assert_eq!(rt; run.step(), Ok(Stepped::Failed));
    assert!(rt; run.has_failed());
    assert_eq!(rt; run.look(), Err(Refusal::Failed));
    assert_eq!(rt; run.step(), Err(Refusal::Failed));
    assert_eq!(rt; run.hand_in(1, [1, 0, 0]), Err(Refusal::Failed));
    assert_eq!(rt; run.hand_in(32, [1, 0, 0]), Err(Refusal::Failed));
    assert_eq!(rt; run.read(1), Some(fact(1, 2, 0)));
    assert_eq!(rt; run.read(2), None);
    assert!(rt; stands_at(&run, 2, 2, &[1]));
    Ok(())
}

#[test]
fn run_on_a_failed_run(rt: HostRuntime) -> Result<(), Fail> {
    let heap = rt.alloc();
    let book = book_of(heap, &HALT)?.ok_or("unread")?;
    let roll = BlankRoll::claim(heap)?;
    let mut run = Run::start(roll, book, flat(heap, 4)?, Counts, Plain);
    let _ = run.hand_in(2, [0, 0, 0]);
    let _ = run.step();
    assert_eq!(rt;
        run.run(0),
        Ran {
            firings: 0,
            ending: Ending::Count
        }
    );
    assert_eq!(rt;
        run.run(1),
        Ran {
            firings: 0,
            ending: Ending::Refused(Refusal::Failed)
        }
    );
    assert_eq!(rt;
        run.run(4_294_967_295),
        Ran {
            firings: 0,
            ending: Ending::Refused(Refusal::Failed)
        }
    );
    assert!(rt; run.has_failed());
    assert!(rt; stands_at(&run, 2, 2, &[1]));
    Ok(())
}

#[test]
fn a_failed_run_is_chosen_and_given_back(rt: HostRuntime) -> Result<(), Fail> {
    let heap = rt.alloc();
    let book = book_of(heap, &HALT)?.ok_or("unread")?;
    let roll = BlankRoll::claim(heap)?;
    let mut run = Run::start(roll, book, flat(heap, 4)?, Counts, Plain);
    let _ = run.hand_in(2, [0, 0, 0]);
    let _ = run.step();
    let chosen = run.choose();
    let held = chosen.held();
    let (run, answer) = chosen.fire();
    assert_eq!(rt; held, Err(Refusal::Failed));
    assert_eq!(rt; answer, Err(Refusal::Failed));
    assert!(rt; stands_at(&run, 2, 2, &[1]));
    let chosen = run.choose();
    let held = chosen.held();
    let run = chosen.lay_aside();
    assert_eq!(rt; held, Err(Refusal::Failed));
    assert!(rt; run.has_failed());
    assert!(rt; stands_at(&run, 2, 2, &[1]));
    Ok(())
}

#[test]
fn run_counts_its_firings(rt: HostRuntime) -> Result<(), Fail> {
    let heap = rt.alloc();
    let book = book_of(heap, &PAIRS)?.ok_or("unread")?;
    let roll = BlankRoll::claim(heap)?;
    let mut run = Run::start(roll, book, flat(heap, 4)?, Counts, Plain);
    for _ in 0..3 {
        let _ = run.hand_in(1, [7, 0, 0]);
    }
    assert_eq!(rt;
        run.run(0),
        Ran {
            firings: 0,
            ending: Ending::Count
        }
    );
    assert!(rt; stands_at(&run, 3, 4, &[1, 2, 3]));
    assert_eq!(rt;
        run.run(2),
        Ran {
            firings: 2,
            ending: Ending::Count
        }
    );
    assert!(rt; stands_at(&run, 5, 4, &[1, 2, 3]));
    assert_eq!(rt; run.roll().get(3), Some(&fired(1, [1, 2, 0, 0])));
    assert_eq!(rt; run.roll().get(4), Some(&fired(1, [1, 3, 0, 0])));
    assert_eq!(rt;
        run.run(9),
        Ran {
            firings: 4,
            ending: Ending::Final
        }
    );
    assert_eq!(rt; run.roll().get(5), Some(&fired(1, [2, 1, 0, 0])));
    assert_eq!(rt; run.roll().get(8), Some(&fired(1, [3, 2, 0, 0])));
    assert_eq!(rt;
        run.run(1),
        Ran {
            firings: 0,
            ending: Ending::Final
        }
    );
    assert!(rt; stands_at(&run, 9, 4, &[1, 2, 3]));
    Ok(())
}

#[test]
fn run_ends_by_count_though_nothing_is_left(rt: HostRuntime) -> Result<(), Fail> {
    let heap = rt.alloc();
    let book = book_of(heap, &PAIRS)?.ok_or("unread")?;
    let roll = BlankRoll::claim(heap)?;
    let mut run = Run::start(roll, book, flat(heap, 2)?, Counts, Plain);
    let _ = run.hand_in(1, [7, 0, 0]);
    let _ = run.hand_in(1, [8, 0, 0]);
    assert_eq!(rt;
        run.run(2),
        Ran {
            firings: 2,
            ending: Ending::Count
        }
    );
    assert_eq!(rt; run.look(), Ok(Sight::Final));
    assert_eq!(rt;
        run.run(0),
        Ran {
            firings: 0,
            ending: Ending::Count
        }
    );
    assert!(rt; stands_at(&run, 4, 3, &[1, 2]));
    Ok(())
}

#[test]
fn run_counts_a_failing_firing(rt: HostRuntime) -> Result<(), Fail> {
    let heap = rt.alloc();
    let book = book_of(heap, &HALT)?.ok_or("unread")?;
    let roll = BlankRoll::claim(heap)?;
    let mut run = Run::start(roll, book, flat(heap, 4)?, Counts, Plain);
    let _ = run.hand_in(2, [0, 0, 0]);
    let _ = run.hand_in(1, [5, 0, 0]);
    let _ = run.hand_in(1, [4, 0, 0]);
    assert_eq!(rt;
        run.run(3),
        Ran {
            firings: 3,
            ending: Ending::Failed
        }
    );
    assert_eq!(rt; run.roll().get(3), Some(&fired(1, [2, 0, 0, 0])));
    assert_eq!(rt; run.roll().get(4), Some(&fired(1, [3, 0, 0, 0])));
    assert_eq!(rt; run.roll().get(5), Some(&fired(2, [1, 0, 0, 0])));
    assert!(rt; run.has_failed());
    assert!(rt; stands_at(&run, 6, 4, &[1]));
    Ok(())
}

#[test]
fn firings_made_before_a_refusal_stand(rt: HostRuntime) -> Result<(), Fail> {
    let heap = rt.alloc();
    let book = book_of(heap, &SPLIT)?.ok_or("unread")?;
    let roll = BlankRoll::claim(heap)?;
    let mut run = Run::start(roll, book, flat(heap, 3)?, Counts, Plain);
    let _ = run.hand_in(1, [1, 0, 0]);
    let _ = run.hand_in(1, [2, 0, 0]);
    let why = Refusal::NoRow(Site::Rule(1));
    assert_eq!(rt;
        run.run(5),
        Ran {
            firings: 1,
            ending: Ending::Refused(why)
        }
    );
    assert_eq!(rt; run.roll().get(2), Some(&fired(1, [1, 0, 0, 0])));
    assert!(rt; stands_at(&run, 3, 5, &[2, 3, 4]));
    assert_eq!(rt;
        run.run(1),
        Ran {
            firings: 0,
            ending: Ending::Refused(why)
        }
    );
    assert!(rt; stands_at(&run, 3, 5, &[2, 3, 4]));
    Ok(())
}

#[test]
fn fire_does_as_step(rt: HostRuntime) -> Result<(), Fail> {
    let heap = rt.alloc();
    let book = book_of(heap, &PATHS)?.ok_or("unread")?;
    let roll = BlankRoll::claim(heap)?;
    let mut run = Run::start(roll, book, flat(heap, 64)?, Counts, Banded);
    let _ = run.hand_in(1, [1, 0, 0]);
    let _ = run.hand_in(2, [1, 4, 2]);
    let _ = run.hand_in(2, [1, 1, 3]);
    let chosen = run.choose();
    let held = chosen.held();
    let (run, answer) = chosen.fire();
    assert_eq!(rt; held, due(1, [1, 0, 0, 0], None));
    assert_eq!(rt; answer, Ok(Stepped::Fired));
    let chosen = run.choose();
    let held = chosen.held();
    let (run, answer) = chosen.fire();
    assert_eq!(rt; held, due(3, [4, 2, 0, 0], None));
    assert_eq!(rt; answer, Ok(Stepped::Fired));
    let (run, answer) = run.choose().fire();
    assert_eq!(rt; answer, Ok(Stepped::Fired));
    let chosen = run.choose();
    let held = chosen.held();
    let (run, answer) = chosen.fire();
    assert_eq!(rt; held, Ok(Sight::Final));
    assert_eq!(rt; answer, Ok(Stepped::Final));
    assert_eq!(rt; run.roll().get(3), Some(&fired(1, [1, 0, 0, 0])));
    assert_eq!(rt; run.roll().get(4), Some(&fired(3, [4, 2, 0, 0])));
    assert_eq!(rt; run.roll().get(5), Some(&fired(3, [4, 3, 0, 0])));
    assert!(rt; stands_at(&run, 6, 7, &[1, 2, 3, 4, 5, 6]));
    Ok(())
}

#[test]
fn a_choice_fired_fails_the_run(rt: HostRuntime) -> Result<(), Fail> {
    let heap = rt.alloc();
    let book = book_of(heap, &HALT)?.ok_or("unread")?;
    let roll = BlankRoll::claim(heap)?;
    let mut run = Run::start(roll, book, flat(heap, 4)?, Counts, Plain);
    let _ = run.hand_in(2, [0, 0, 0]);
    let chosen = run.choose();
    let held = chosen.held();
    let (run, answer) = chosen.fire();
    assert_eq!(rt; held, due(2, [1, 0, 0, 0], None));
    assert_eq!(rt; answer, Ok(Stepped::Failed));
    assert!(rt; run.has_failed());
    assert!(rt; stands_at(&run, 2, 2, &[1]));
    Ok(())
}

#[test]
fn a_choice_refused_changes_nothing(rt: HostRuntime) -> Result<(), Fail> {
    let heap = rt.alloc();
    let book = book_of(heap, &SPLIT)?.ok_or("unread")?;
    let roll = BlankRoll::claim(heap)?;
    let mut run = Run::start(roll, book, flat(heap, 1)?, Counts, Plain);
    let _ = run.hand_in(1, [7, 0, 0]);
    let chosen = run.choose();
    let held = chosen.held();
    let (run, answer) = chosen.fire();
    let why = Refusal::NoRow(Site::Rule(1));
    assert_eq!(rt; held, due(1, [1, 0, 0, 0], Some(why)));
    assert_eq!(rt; answer, Err(why));
    assert_eq!(rt; run.look(), due(1, [1, 0, 0, 0], Some(why)));
    assert!(rt; stands_at(&run, 1, 2, &[1]));
    Ok(())
}

#[test]
fn after_a_hand_in_another_is_chosen(rt: HostRuntime) -> Result<(), Fail> {
    let heap = rt.alloc();
    let book = book_of(heap, &SPLIT)?.ok_or("unread")?;
    let roll = BlankRoll::claim(heap)?;
    let mut run = Run::start(roll, book, flat(heap, 8)?, Counts, Plain);
    let _ = run.hand_in(1, [5, 0, 0]);
    let chosen = run.choose();
    let held = chosen.held();
    let run = chosen.lay_aside();
    assert_eq!(rt; held, due(1, [1, 0, 0, 0], None));
    assert_eq!(rt; run.look(), due(1, [1, 0, 0, 0], None));
    assert!(rt; stands_at(&run, 1, 2, &[1]));
    let mut run = run;
    let _ = run.hand_in(1, [3, 0, 0]);
    let chosen = run.choose();
    let held = chosen.held();
    let (run, answer) = chosen.fire();
    assert_eq!(rt; held, due(1, [2, 0, 0, 0], None));
    assert_eq!(rt; answer, Ok(Stepped::Fired));
    assert_eq!(rt; run.roll().get(2), Some(&fired(1, [2, 0, 0, 0])));
    assert!(rt; stands_at(&run, 3, 5, &[1, 3, 4]));
    Ok(())
}

#[test]
fn read_answers_as_the_store_does(rt: HostRuntime) -> Result<(), Fail> {
    let heap = rt.alloc();
    let book = book_of(heap, &GROW)?.ok_or("unread")?;
    let roll = BlankRoll::claim(heap)?;
    let mut run = Run::start(roll, book, flat(heap, 4)?, Counts, Plain);
    assert_eq!(rt; run.read(1), None);
    let _ = run.hand_in(1, [41, 0, 0]);
    assert_eq!(rt; run.read(1), Some(fact(1, 1, 41)));
    assert_eq!(rt; run.step(), Ok(Stepped::Fired));
    assert_eq!(rt; run.read(1), None);
    assert_eq!(rt; run.read(2), Some(fact(2, 2, 42)));
    assert_eq!(rt; run.read(3), None);
    Ok(())
}

#[test]
fn the_last_place_of_the_roll_takes_a_firing(rt: HostRuntime) -> Result<(), Fail> {
    let heap = rt.alloc();
    let book = book_of(heap, &GROW)?.ok_or("unread")?;
    let roll = BlankRoll::claim(heap)?;
    let mut run = Run::start(roll, book, flat(heap, 4096)?, Counts, Plain);
    for _ in 0..1021 {
        let _ = run.hand_in(2, [0, 0, 0]);
    }
    let _ = run.hand_in(1, [1, 0, 0]);
    let _ = run.hand_in(1, [2, 0, 0]);
    let why = Refusal::RollFull(Site::Rule(1));
    assert_eq!(rt;
        run.run(2),
        Ran {
            firings: 1,
            ending: Ending::Refused(why)
        }
    );
    assert_eq!(rt; run.roll().get(1023), Some(&fired(1, [1022, 0, 0, 0])));
    assert_eq!(rt; run.roll().len(), 1024);
    assert_eq!(rt; run.next_id(), 1025);
    assert_eq!(rt; run.look(), due(1, [1023, 0, 0, 0], Some(why)));
    assert_eq!(rt;
        run.hand_in(2, [0, 0, 0]),
        Err(Refusal::RollFull(Site::HandIn))
    );
    Ok(())
}
