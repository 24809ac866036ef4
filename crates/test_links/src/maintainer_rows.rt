//! Rows of maintainers: marks, and what is read.

use causal_deps::Shown;
use cz_base::{Lid, NoMemory};
use flstore_rounds::{EpochFault, Epochs};
use maintainer::Maintainer;
use std::alloc::Global;
use std::process::Abort;
use std::test::Fail;

// Positions in the order in which they come, each with the mark that it leaves.
struct Row {
    number: u32,
    places: &'static [(Lid, Lid)],
}

// Round 2, two members.
const TWO: [Row; 2] = [
    Row {
        number: 0,
        places: &[(2, 1), (1, 3)],
    },
    Row {
        number: 1,
        places: &[(3, 4)],
    },
];

// Round 2, two members, and from position 5 on three.
const GROWN: [Row; 3] = [
    Row {
        number: 0,
        places: &[(1, 2), (2, 3), (12, 3), (6, 3), (11, 3), (5, 13)],
    },
    Row {
        number: 1,
        places: &[(4, 1), (8, 1), (3, 5), (7, 9)],
    },
    Row {
        number: 2,
        places: &[(10, 1), (9, 11)],
    },
];

fn learned(alloc: Global, number: u32) -> Result<Maintainer<u64>, EpochFault> {
    let Ok(first) = Epochs::first(alloc, 2, 2) else {
        return Err(EpochFault::NoMemory);
    };
    let Ok(mut grown) = Epochs::first(alloc, 2, 2) else {
        return Err(EpochFault::NoMemory);
    };
    grown.add_epoch(5, 3)?;
    let mut maintainer = Maintainer::new(alloc, number, first);
    let Ok(()) = maintainer.learn(&grown) else {
        return Err(EpochFault::NoMemory);
    };
    Ok(maintainer)
}

// Whether the position is own and vacant, and then its value is its tenfold.
fn put(maintainer: &mut Maintainer<u64>, lid: Lid) -> Result<bool, NoMemory> {
    maintainer.reserve(1)?;
    if lid < 1 || lid >= 100 || maintainer.epochs().owner(lid) != maintainer.number() {
        return Ok(false);
    }
    let vacant = matches!(maintainer.read(lid), Shown::Empty);
    if vacant {
        maintainer.place(lid, 10 * lid);
    }
    Ok(vacant)
}

fn holds(rt: &impl Abort, maintainer: &mut Maintainer<u64>, row: &Row) -> Result<(), Fail> {
    for (lid, mark) in row.places {
        assert!(rt; put(maintainer, *lid)?, "{lid} is vacant");
        assert_eq!(rt; maintainer.filled(), *mark, "the mark after {lid}");
    }
    Ok(())
}

#[test]
fn marks_pass_no_gap(rt: HostRuntime) -> Result<(), Fail> {
    let alloc = rt.alloc();
    for row in &TWO {
        let mut maintainer = Maintainer::new(alloc, row.number, Epochs::first(alloc, 2, 2)?);
        assert_eq!(rt; maintainer.filled(), 1);
        holds(&rt, &mut maintainer, row)?;
    }
    Ok(())
}

#[test]
fn marks_go_by_the_longer_list(rt: HostRuntime) -> Result<(), Fail> {
    for row in &GROWN {
        let mut maintainer = learned(rt.alloc(), row.number)?;
        holds(&rt, &mut maintainer, row)?;
    }
    Ok(())
}

#[test]
fn reads_show_what_was_placed(rt: HostRuntime) -> Result<(), Fail> {
    let alloc = rt.alloc();
    let mut maintainer = Maintainer::new(alloc, 1, Epochs::first(alloc, 2, 2)?);
    maintainer.reserve(2)?;
    maintainer.place(4, 40);
    maintainer.place(3, 30);
    for (lid, value) in [(3, Some(30)), (4, Some(40)), (7, None)] {
        let shown = match maintainer.read(lid) {
            Shown::Filled(value) => Some(*value),
            Shown::Gone => Some(0),
            Shown::Empty => None,
        };
        assert_eq!(rt; shown, value, "at {lid}");
    }
    for (lid, next) in [(0, Some(3)), (3, Some(4)), (4, None)] {
        assert_eq!(rt; maintainer.after(lid), next, "after {lid}");
    }
    Ok(())
}
