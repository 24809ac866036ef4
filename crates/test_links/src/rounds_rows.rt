//! Rows of owners, epoch lists, vectors and heads.

use cz_base::Lid;
use cz_base::limits::MEMBERS;
use flstore_rounds::{Epoch, EpochFault, Epochs, head_of};
use head_gossip::{Note, Vector};
use std::alloc::Global;
use std::process::Abort;
use std::test::Fail;

// Who owns positions 1 to 7 in rounds of 2 among three members.
const OWNERS: [u32; 7] = [0, 0, 1, 1, 2, 2, 0];

// Marks of the first three maintainers, and 1 for all others.
fn marks(first: [Lid; 3]) -> [Lid; MEMBERS] {
    let mut marks = [1; MEMBERS];
    marks[0] = first[0];
    marks[1] = first[1];
    marks[2] = first[2];
    marks
}

// Round 2, two members, and from position 5 on three.
fn grown(alloc: Global) -> Result<Epochs, EpochFault> {
    let Ok(mut epochs) = Epochs::first(alloc, 2, 2) else {
        return Err(EpochFault::NoMemory);
    };
    epochs.add_epoch(5, 3)?;
    Ok(epochs)
}

#[test]
fn owners_go_by_rounds(rt: HostRuntime) -> Result<(), Fail> {
    let epochs = Epochs::first(rt.alloc(), 2, 3)?;
    for p in 1..8 {
        assert_eq!(rt; epochs.owner(p), OWNERS[p as usize - 1]);
    }
    assert_eq!(rt; epochs.next_own(0, 3), 7);
    Ok(())
}

// The vector hears a note whose list goes on from its own.
fn hear(rt: &impl Abort, vector: &mut Vector, note: &Note) -> Result<(), Fail> {
    let known = vector.tell()?;
    assert!(rt; known.epochs.is_prefix(&note.epochs));
    vector.hear(note)?;
    Ok(())
}

#[test]
fn the_longer_list_wins(rt: HostRuntime) -> Result<(), Fail> {
    let alloc = rt.alloc();
    let mut short = Epochs::first(alloc, 2, 2)?;
    let mut long = grown(alloc)?;
    assert!(rt; short.is_prefix(&long));
    assert!(rt; !long.is_prefix(&short));
    assert!(rt; long.last().members < 4);
    assert_eq!(rt;
        long.add_epoch(5, 4),
        Err(EpochFault::Late { last_start: 5 })
    );
    let copy = long.copy()?;
    assert!(rt; short.is_prefix(&copy));
    short.take_longer(&copy)?;
    assert_eq!(rt;
        short.last(),
        Epoch {
            start: 5,
            members: 3
        }
    );
    assert_eq!(rt; short.list().len(), 2);
    Ok(())
}

#[test]
fn a_head_goes_by_the_list_that_it_is_given(rt: HostRuntime) -> Result<(), Fail> {
    let alloc = rt.alloc();
    let old = Epochs::first(alloc, 2, 2)?;
    let new = grown(alloc)?;
    let told = marks([13, 9, 1]);
    assert_eq!(rt; head_of(old.round(), old.list(), &told), 10);
    assert_eq!(rt; head_of(new.round(), new.list(), &told), 8);
    Ok(())
}

#[test]
fn no_head_passes_a_gap(rt: HostRuntime) -> Result<(), Fail> {
    let alloc = rt.alloc();
    let mut vector = Vector::new(alloc, Epochs::first(alloc, 2, 2)?);
    assert_eq!(rt; vector.head(), 0);
    for (first, head) in [([13, 1, 1], 2), ([1, 9, 1], 8), ([1, 1, 11], 12)] {
        let note = Note {
            epochs: grown(alloc)?,
            marks: marks(first),
        };
        hear(&rt, &mut vector, &note)?;
        assert_eq!(rt; vector.head(), head);
    }
    Ok(())
}

#[test]
fn a_vector_tells_its_own_mark(rt: HostRuntime) -> Result<(), Fail> {
    let alloc = rt.alloc();
    let mut vector = Vector::new(alloc, grown(alloc)?);
    let old = Epochs::first(alloc, 2, 2)?;
    let known = vector.tell()?;
    assert!(rt; old.is_prefix(&known.epochs));
    vector.own(&old, 2, 11)?;
    let note = vector.tell()?;
    assert_eq!(rt; note.marks, marks([1, 1, 11]));
    assert_eq!(rt;
        note.epochs.last(),
        Epoch {
            start: 5,
            members: 3
        }
    );
    Ok(())
}
