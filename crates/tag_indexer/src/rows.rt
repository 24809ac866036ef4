//! Rows by rising position.
ghost use Rattle.std.specs.Prelude.{◌≡◌, ℕ, ◌+◌, ◌-◌, ◌<◌, ◌≤◌, ◌==◌, List, [], length, map, filter, find, All, IfOk, MatchOption, OnOk, false, vec_len, vec_capacity};
ghost use Rattle.std.specs.Option.{option_copied};
ghost use Rattle.std.specs.List.{filter_map};
ghost use Rattle.abstract_log.specs.Answers.{last_of};
ghost use Rattle.tag_indexer.specs.Rows.{has_home, newest_row, row_in, rows_in, tagged_places, told_row};
ghost use Rattle.tag_indexer.specs.TagIndexes.{AreLidsRising, AreTagsListed, AreUpdatesListed, IsLastUpdate, IsListedUnder, IsRowListed, IsUpdate, ListsAll, has_update_at, place_tagged_at};
ghost use Rattle.tag_indexer.specs.Indexers.{AreInOrder, AreSorted};

use crate::tag_index::TagIndex;
use crate::{Post, home};
use causal_deps::{Newest, Place};
use cz_base::{Lid, Name, NoMemory, Seq};
use std::alloc::Global;

/// Lists the rows under their tags that have their home at that indexer, and updates also among the updates. What is
/// listed stays so, also where no memory is left.
pub(crate) fn list_rows(
    updates: &mut TagIndex,
    tagged: &mut TagIndex,
    rows: &Seq<Post>,
    number: u32,
    indexers: u32,
) -> Result<(), NoMemory>
    requires { 1 ≤ indexers }
    ensures listed { OnOk result (All (IsRowListed number indexers updates.new tagged.new) rows.now) }
    ensures updates { ListsAll updates.old updates.new }
    ensures tagged { ListsAll tagged.old tagged.new }
{
    for row in rows.as_slice() {
        list_row(updates, tagged, row, number, indexers)?;
    }
    Ok(())
}

// Lists one row.
fn list_row(
    updates: &mut TagIndex,
    tagged: &mut TagIndex,
    row: &Post,
    number: u32,
    indexers: u32,
) -> Result<(), NoMemory>
    requires { 1 ≤ indexers }
    ensures listed { OnOk result (IsRowListed number indexers updates.new tagged.new row.now) }
    ensures updates { ListsAll updates.old updates.new }
    ensures tagged { ListsAll tagged.old tagged.new }
{
    for tag in row.tags.as_slice() {
        list_under(updates, tagged, tag, row, number, indexers)?;
    }
    Ok(())
}

// Lists a row under one tag, if that has its home at the indexer.
fn list_under(
    updates: &mut TagIndex,
    tagged: &mut TagIndex,
    tag: &Name,
    row: &Post,
    number: u32,
    indexers: u32,
) -> Result<(), NoMemory>
    requires { 1 ≤ indexers }
    ensures listed { OnOk result (IsListedUnder number indexers updates.new tagged.new row.now tag.now) }
    ensures updates { ListsAll updates.old updates.new }
    ensures tagged { ListsAll tagged.old tagged.new }
{
    if home(tag, indexers) != number {
        return Ok(());
    }
    tagged.add(tag, row.place.lid)?;
    if row.kind.is_update() {
        updates.add(tag, row.place.lid)?;
    }
    Ok(())
}

/// Puts the rows with a tag at home at that indexer in their places.
pub(crate) fn put_rows(rows: &mut Vec<Post>, more: Seq<Post>, number: u32, indexers: u32)
    requires indexers { 1 ≤ indexers }
    requires sorted { AreSorted rows.old.items }
    requires room { vec_len rows.old + length more ≤ vec_capacity rows.old }
    ensures { rows.new.items ≡ rows_in rows.old.items (filter (λ post. has_home indexers number post.tags) more) }
{
    for row in more.into_vec() {
        if is_at_home(&row, number, indexers) {
            put_row(rows, row);
        }
    }
}

// Whether one of the tags has its home at that indexer.
fn is_at_home(row: &Post, number: u32, indexers: u32) -> bool
    requires { 1 ≤ indexers }
    ensures { result ≡ has_home indexers number row.now.tags }
{
    for tag in row.tags.as_slice() {
        if home(tag, indexers) == number {
            return true;
        }
    }
    false
}

// Puts the row in its place by position.
fn put_row(rows: &mut Vec<Post>, row: Post)
    requires sorted { AreSorted rows.old.items }
    requires room { vec_len rows.old < vec_capacity rows.old }
    ensures items { rows.new.items ≡ row_in row rows.old.items }
    ensures sorted { AreSorted rows.new.items }
    ensures len { vec_len rows.new ≡ vec_len rows.old + 1 }
    ensures capacity { vec_capacity rows.new ≡ vec_capacity rows.old }
{
    let at = rows
        .as_slice()
        .partition_point(|other| other.place.lid <= row.place.lid);
    rows.insert(at, row).unwrap();
}

/// The row at a position.
fn row_at(rows: &[Post], lid: Lid) -> Option<&Post>
    requires { AreSorted rows.now }
    ensures { option_copied result ≡ find (λ post. post.place.lid == lid) rows.now }
{
    let Some(row) = rows.get(rows.partition_point(|row| row.place.lid < lid)) else {
        return None;
    };
    if row.place.lid == lid {
        Some(row)
    } else {
        None
    }
}

/// What is told of the last update of the key at or below s.
pub(crate) fn newest_update(rows: &[Post], updates: &TagIndex, key: &Name, s: Lid) -> Newest
    requires order { AreInOrder rows.now }
    requires listed { AreUpdatesListed updates.now rows.now key.now }
    ensures { result ≡ told_row rows.now (newest_row rows.now key.now s) }
{
    match last_update(rows, updates.up_to(key, s), key) {
        Some(row) => row.told(),
        None => Newest::Absent,
    }
}

/// The places at or below s of the last `count` rows with the tag, in order.
pub(crate) fn last_tagged(
    alloc: Global,
    rows: &[Post],
    tagged: &TagIndex,
    tag: &Name,
    count: u32,
    s: Lid,
) -> Result<Seq<Place>, NoMemory>
    requires order { AreInOrder rows.now }
    requires listed { AreTagsListed tagged.now rows.now tag.now }
    ensures { IfOk result (λ places. places ≡ last_of count (tagged_places rows.now tag.now s)) }
{
    last_places(alloc, rows, tagged.up_to(tag, s), tag, count)
}

// The row at a position, if it is an update of the key.
fn update_at<'a>(rows: &'a [Post], lid: Lid, key: &Name) -> Option<&'a Post>
    requires { AreSorted rows.now }
    ensures { MatchOption (option_copied result) (has_update_at rows.now key.now lid ≡ false) (λ row. IsUpdate rows.now key.now row × (row.place.lid ≡ lid)) }
{
    match row_at(rows, lid) {
        Some(row) if row.kind.is_update() && row.has_tag(key) => Some(row),
        _ => None,
    }
}

// The last row at these positions, which rise, that is an update of the key.
fn last_update<'a>(rows: &'a [Post], lids: &[Lid], key: &Name) -> Option<&'a Post>
    requires sorted { AreSorted rows.now }
    requires rising { AreLidsRising lids.now }
    ensures { MatchOption (option_copied result) (All (λ p. has_update_at rows.now key.now p ≡ false) lids.now) (IsLastUpdate rows.now key.now lids.now) }
{
    let mut at = lids.len();
    while at > 0 {
        at -= 1;
        if let Some(row) = update_at(rows, lids[at], key) {
            return Some(row);
        }
    }
    None
}

// The place of the row at a position, if it has the tag.
fn place_tagged(rows: &[Post], lid: Lid, tag: &Name) -> Option<Place>
    requires { AreSorted rows.now }
    ensures { result ≡ place_tagged_at rows.now tag.now lid }
{
    match row_at(rows, lid) {
        Some(row) if row.has_tag(tag) => Some(row.place),
        _ => None,
    }
}

// The last `count` places of rows with the tag at these positions, in order.
fn last_places(
    alloc: Global,
    rows: &[Post],
    lids: &[Lid],
    tag: &Name,
    count: u32,
) -> Result<Seq<Place>, NoMemory>
    requires { AreSorted rows.now }
    ensures { IfOk result (λ places. places ≡ last_of count (filter_map (place_tagged_at rows.now tag.now) lids.now)) }
{
    let mut places = Vec::new(alloc);
    let mut at = lids.len();
    while at > 0 && places.len() < count as usize {
        at -= 1;
        if let Some(place) = place_tagged(rows, lids[at], tag) {
            places.push(place)?;
        }
    }
    places.reverse();
    Ok(Seq::from_vec(places))
}
