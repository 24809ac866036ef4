//! Names that are read, and names that are refused with their fault.
use cz_base::limits::NAME_BYTES;
use cz_base::{Name, NameFault};
use std::test::Fail;

struct Refused {
    name: &'static [u8],
    fault: NameFault,
}

const REFUSED: [Refused; 4] = [
    Refused {
        name: b"",
        fault: NameFault::Length,
    },
    Refused {
        name: b"a b",
        fault: NameFault::Byte { at: 1 },
    },
    Refused {
        name: b"a/",
        fault: NameFault::Byte { at: 1 },
    },
    Refused {
        name: b"=v",
        fault: NameFault::Byte { at: 0 },
    },
];

#[test]
fn what_is_no_name_is_refused(rt: HostRuntime) -> Result<(), Fail> {
    for row in &REFUSED {
        match Name::read(rt.alloc(), row.name) {
            Err(fault) => assert_eq!(rt; fault, row.fault),
            Ok(_) => return Err(Fail::from("no name was read")),
        }
    }
    Ok(())
}

#[test]
fn the_longest_name_is_read(rt: HostRuntime) -> Result<(), Fail> {
    let alloc = rt.alloc();
    let long = vec![in alloc; b'a'; NAME_BYTES + 1]?;
    match Name::read(alloc, &long) {
        Err(fault) => assert_eq!(rt; fault, NameFault::Length),
        Ok(_) => return Err(Fail::from("a name that is too long")),
    }
    let name = Name::read(alloc, &long[..NAME_BYTES])?;
    assert_eq!(rt; name.as_bytes(), &long[..NAME_BYTES]);
    Ok(())
}
