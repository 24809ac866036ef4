//! The datacentres of a generated script.

ghost use Rattle.std.specs.Prelude.{◌≡◌, ◌<◌};

use cz_base::DcId;

/// The datacentre with a number below [`DATACENTRE_COUNT`](crate::shape::DATACENTRE_COUNT).
pub fn datacentre(number: u32) -> DcId
    requires { number < 3 }
    ensures { result ≡ number }
{
    let Some(dc) = DcId::new(number) else {
        unreachable!()
    };
    dc
}
