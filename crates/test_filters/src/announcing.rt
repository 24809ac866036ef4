//! Rows of the announcement of a datacentre with two filters.

use cz_base::{DcId, Toid};
use stage_marks::{Announce, Marks, NextMark};
use std::process::Abort;
use std::test::Fail;
use toid_filter::Accept;

const FILTERS: u32 = 2;

// What is done with the announcement, and what comes of it.
#[derive(Clone, Copy)]
enum Line {
    // A mark is announced for the first host, whose last share starts at `last_start`.
    Announced {
        mark: Toid,
        last_start: Toid,
        told: Announce,
    },
    // The next step, with what the filter answers where one is asked.
    Next {
        next: NextMark,
        answer: Accept,
    },
}

const LINES: [Line; 13] = [
    Line::Next {
        next: NextMark::Idle,
        answer: Accept::Accepted,
    },
    Line::Announced {
        mark: 1,
        last_start: 1,
        told: Announce::Late { last_start: 1 },
    },
    Line::Announced {
        mark: 3,
        last_start: 1,
        told: Announce::Announced,
    },
    Line::Announced {
        mark: 4,
        last_start: 1,
        told: Announce::Busy {
            host: DcId::FIRST,
            mark: 3,
        },
    },
    Line::Next {
        next: NextMark::Ask { filter: 0 },
        answer: Accept::Accepted,
    },
    Line::Next {
        next: NextMark::Ask { filter: 1 },
        answer: Accept::Accepted,
    },
    Line::Next {
        next: NextMark::Activate,
        answer: Accept::Accepted,
    },
    Line::Next {
        next: NextMark::Idle,
        answer: Accept::Accepted,
    },
    Line::Announced {
        mark: 3,
        last_start: 3,
        told: Announce::Late { last_start: 3 },
    },
    Line::Announced {
        mark: 5,
        last_start: 3,
        told: Announce::Announced,
    },
    Line::Next {
        next: NextMark::Ask { filter: 0 },
        answer: Accept::Accepted,
    },
    // The announcement is off once a filter has passed the mark.
    Line::Next {
        next: NextMark::Ask { filter: 1 },
        answer: Accept::Late { passed: 7 },
    },
    Line::Next {
        next: NextMark::Idle,
        answer: Accept::Accepted,
    },
];

fn goes_on(rt: &impl Abort, marks: &mut Marks, line: &Line) {
    match *line {
        Line::Announced {
            mark,
            last_start,
            told,
        } => {
            assert_eq!(rt; marks.announce(DcId::FIRST, mark, last_start), told);
        }
        Line::Next { next, answer } => {
            let told = marks.next(FILTERS);
            assert_eq!(rt; told, next);
            match told {
                NextMark::Idle => {}
                NextMark::Ask { .. } => marks.heard(FILTERS, answer),
                NextMark::Activate => marks.done(FILTERS),
            }
        }
    }
}

#[test]
fn filters_are_asked_one_after_another(rt: HostRuntime) -> Result<(), Fail> {
    let mut marks = Marks::new();
    for line in &LINES {
        goes_on(&rt, &mut marks, line);
    }
    Ok(())
}
