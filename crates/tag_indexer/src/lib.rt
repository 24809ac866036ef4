//! Indexers of one datacentre's log: each looks up the tags that have their home there.
//!
//! Model: an [`Indexer`] is seen as an epoch list, a mark of each maintainer and a list of rows by rising position:
//! which tags a record has, and of which kind it is.
//!
//! To the layers above: what the newest update of a key tells and the last records with a tag, at a position that the indexer covers,
//! are those of every log of which it has the rows, and it goes on having them where rows are posted and where the log
//! grows.
//!
//! Decided: the ordered maps by which it looks up stand in no contract; they may list a position that is not posted,
//! where a post found no memory, and every answer is checked at the row. So a refused post changes nothing that is seen.
//! What is covered is the head of the marks, so one rule of heads serves log and index.
//!
//! Tests: none here; look-ups are tested in `test_world`.
#![tactic(auto)]

mod indexer;
mod post;
mod rows;
mod tag_index;

pub use indexer::Indexer;
pub use post::{Post, home};
