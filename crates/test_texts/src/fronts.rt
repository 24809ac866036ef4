//! The lines with which scripts of these tests begin.

/// Up to the sizes, with one datacentre.
pub(crate) const ONE_DATACENTRE: &str = "\
chariots 1
datacentres 1
round 1
";

/// Up to the sizes, with as many datacentres as there may be.
pub(crate) const EIGHT_DATACENTRES: &str = "\
chariots 1
datacentres 8
round 1
";

/// One datacentre, of which the sizes are given.
pub(crate) const SIZES_GIVEN: &str = "\
chariots 1
datacentres 1
round 1
stages A 1 1 1 1 1 1 1
";

/// One datacentre, where one session has begun.
pub(crate) const ONE_SESSION: &str = "\
chariots 1
datacentres 1
round 1
session A
";

/// One datacentre without a session, where the steps have begun.
pub(crate) const NO_SESSION: &str = "\
chariots 1
datacentres 1
round 1
steps
";

/// One session, and the steps have begun; a comment and an empty line stand first.
pub(crate) const STEPS_OF_ONE_SESSION: &str = "\
# a comment, and an empty line

chariots 1
datacentres 1
round 1
session A
steps
";

/// Two datacentres without a session, where the steps have begun.
pub(crate) const LINKS_OF_TWO: &str = "\
chariots 1
datacentres 2
round 1
steps
";

/// Two datacentres, of which the second has as many members of each stage as there may be.
pub(crate) const FULL_STAGES: &str = "\
chariots 1
datacentres 2
round 1
stages B 16 16 16 16 16 16 16
steps
";

/// A whole script without sessions and steps.
pub(crate) const ENDED: &str = "\
chariots 1
datacentres 1
round 1
steps
end
";
