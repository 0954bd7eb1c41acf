//! The productions of type lines.
ghost use Rattle.std.specs.Prelude.{◌≡◌, codes};
ghost use Rattle.spec_grammar.specs.Grammar.{s};
ghost use Rattle.law_grammar.specs.Reading as read;
ghost use Rattle.spec_workloads.specs.TypeLines as spec;
ghost use Rattle.ras_parse.specs.Inputs.{Reads};
ghost use Rattle.ras_workload.specs.TypeParts.{interval_read, extent_read, null_read, type_rest};

use crate::cells::Cells;
use crate::drafts::Draft;
use crate::intervals::WideInterval;
use crate::type_tokens::{free_name, natural, type_word, zero_digit};
use ras_cells::Atom;
use ras_domain::{List, Name};
use ras_parse::cursor::Cursor;
use ras_parse::lists::{one, push};
use ras_parse::stop::Stop;
use ras_parse::tables::{ATOM_WORDS, UNSIGNED_WORDS};
use std::alloc::Global;

/// `atom`
#[tactic(auto, using(ras_parse::proofs::Readings::reading))]
fn atom(cursor: &mut Cursor<'_>) -> Result<Atom, Stop>
    ensures { Reads read.atom_read cursor.old result cursor.new }
{
    if let Some(atom) = cursor.meaning(&ATOM_WORDS) {
        return Ok(atom);
    }
    cursor.expect_word(b"unsigned")?;
    if let Some(atom) = cursor.meaning(&UNSIGNED_WORDS) {
        return Ok(atom);
    }
    Err(Stop::Unexpected)
}

/// `|[ "-" ]| number`, in 128 bits: so each number has its negative.
#[tactic(auto, using(ras_parse::proofs::Readings::reading))]
fn signed_number(cursor: &mut Cursor<'_>) -> Result<i128, Stop>
    ensures { Reads spec.signed_number cursor.old result cursor.new }
{
    if cursor.sign(b"-") {
        let Some((value, _)) = cursor.number() else {
            return Err(Stop::Unexpected);
        };
        return Ok(-i128::from(value));
    }
    let Some((value, _)) = cursor.number() else {
        return Err(Stop::Unexpected);
    };
    Ok(i128::from(value))
}

/// `"*" | |[ "-" ]| number`
#[tactic(auto, using(ras_parse::proofs::Readings::reading))]
fn bound(cursor: &mut Cursor<'_>) -> Result<Option<i128>, Stop>
    ensures { Reads spec.bound_read cursor.old result cursor.new }
{
    if cursor.sign(b"*") {
        Ok(None)
    } else {
        Ok(Some(signed_number(cursor)?))
    }
}

/// `bound ":" bound`
#[tactic(auto, using(ras_parse::proofs::Readings::reading))]
fn interval(cursor: &mut Cursor<'_>) -> Result<WideInterval, Stop>
    ensures { Reads interval_read cursor.old result cursor.new }
{
    let lo = bound(cursor)?;
    cursor.expect_sign(b":")?;
    let hi = bound(cursor)?;
    Ok(WideInterval::told(lo, hi))
}

/// `bound ":" bound {{ "," bound ":" bound }}`
fn intervals(alloc: Global, cursor: &mut Cursor<'_>) -> Result<List<WideInterval>, Stop>
    ensures { Reads (read.comma_list read.any_count interval_read) cursor.old result cursor.new }
{
    let first = interval(cursor)?;
    let mut items = one(alloc, first)?;
    while cursor.sign(b",") {
        let item = interval(cursor)?;
        push(alloc, &mut items, item)?;
    }
    Ok(items)
}

/// `bounds := "[" bound ":" bound {{ "," bound ":" bound }} "]"`
#[tactic(auto, using(ras_parse::proofs::Readings::reading))]
fn bounds(alloc: Global, cursor: &mut Cursor<'_>) -> Result<List<WideInterval>, Stop>
    ensures { Reads spec.intervals_read cursor.old result cursor.new }
{
    cursor.expect_sign(b"[")?;
    let items = intervals(alloc, cursor)?;
    cursor.expect_sign(b"]")?;
    Ok(items)
}

/// `"0" ":" number`: so many coordinates, and one more.
#[tactic(auto, using(ras_parse::proofs::Readings::reading))]
fn extent(cursor: &mut Cursor<'_>) -> Result<u64, Stop>
    ensures { Reads extent_read cursor.old result cursor.new }
{
    if !zero_digit(cursor) {
        return Err(Stop::Unexpected);
    }
    cursor.expect_sign(b":")?;
    match natural(cursor) {
        Some(n) => Ok(n + 1),
        None => Err(Stop::Unexpected),
    }
}

/// `"0" ":" number {{ "," "0" ":" number }}`
fn all_extents(alloc: Global, cursor: &mut Cursor<'_>) -> Result<List<u64>, Stop>
    ensures { Reads (read.comma_list read.any_count extent_read) cursor.old result cursor.new }
{
    let first = extent(cursor)?;
    let mut items = one(alloc, first)?;
    while cursor.sign(b",") {
        let item = extent(cursor)?;
        push(alloc, &mut items, item)?;
    }
    Ok(items)
}

/// `extents := "[" "0" ":" number {{ "," "0" ":" number }} "]"`
#[tactic(auto, using(ras_parse::proofs::Readings::reading))]
fn extents(alloc: Global, cursor: &mut Cursor<'_>) -> Result<List<u64>, Stop>
    ensures { Reads spec.extents_read cursor.old result cursor.new }
{
    cursor.expect_sign(b"[")?;
    let items = all_extents(alloc, cursor)?;
    cursor.expect_sign(b"]")?;
    Ok(items)
}

/// `value |[ ":" value ]|`: one value is the interval of it alone.
#[tactic(auto, using(ras_parse::proofs::Readings::reading))]
fn null(cursor: &mut Cursor<'_>) -> Result<(i128, i128), Stop>
    ensures { Reads null_read cursor.old result cursor.new }
{
    let lo = signed_number(cursor)?;
    if !cursor.sign(b":") {
        return Ok((lo, lo));
    }
    let hi = signed_number(cursor)?;
    Ok((lo, hi))
}

/// `value |[ ":" value ]| {{ "," value |[ ":" value ]| }}`
fn all_nulls(alloc: Global, cursor: &mut Cursor<'_>) -> Result<List<(i128, i128)>, Stop>
    ensures { Reads (read.comma_list read.any_count null_read) cursor.old result cursor.new }
{
    let first = null(cursor)?;
    let mut items = one(alloc, first)?;
    while cursor.sign(b",") {
        let item = null(cursor)?;
        push(alloc, &mut items, item)?;
    }
    Ok(items)
}

/// `nulls := "[" value |[ ":" value ]| {{ "," value |[ ":" value ]| }} "]"`
#[tactic(auto, using(ras_parse::proofs::Readings::reading))]
fn nulls(alloc: Global, cursor: &mut Cursor<'_>) -> Result<List<(i128, i128)>, Stop>
    ensures { Reads spec.nulls_read cursor.old result cursor.new }
{
    cursor.expect_sign(b"[")?;
    let items = all_nulls(alloc, cursor)?;
    cursor.expect_sign(b"]")?;
    Ok(items)
}

/// `name ":" atom`
#[tactic(auto, using(ras_parse::proofs::Readings::reading))]
fn component(alloc: Global, cursor: &mut Cursor<'_>) -> Result<(Name, Atom), Stop>
    ensures { Reads spec.component cursor.old result cursor.new }
{
    let Some(bytes) = free_name(cursor) else {
        return Err(Stop::Unexpected);
    };
    let name = Name::of(alloc, bytes)?;
    cursor.expect_sign(b":")?;
    let atom = atom(cursor)?;
    Ok((name, atom))
}

/// `name ":" atom {{ "," name ":" atom }}`
fn components(alloc: Global, cursor: &mut Cursor<'_>) -> Result<List<(Name, Atom)>, Stop>
    ensures { Reads (read.comma_list read.any_count spec.component) cursor.old result cursor.new }
{
    let first = component(alloc, cursor)?;
    let mut items = one(alloc, first)?;
    while cursor.sign(b",") {
        let item = component(alloc, cursor)?;
        push(alloc, &mut items, item)?;
    }
    Ok(items)
}

/// `cells := atom | "{" name ":" atom {{ "," name ":" atom }} "}"`
#[tactic(auto, using(ras_parse::proofs::Readings::reading))]
fn cells(alloc: Global, cursor: &mut Cursor<'_>) -> Result<Cells, Stop>
    ensures { Reads spec.cells_read cursor.old result cursor.new }
{
    if !cursor.sign(b"{") {
        return Ok(Cells::one(atom(cursor)?));
    }
    let items = components(alloc, cursor)?;
    cursor.expect_sign(b"}")?;
    Ok(Cells::many(items))
}

/// `|[ "tiles" extents ]|`
#[tactic(auto, using(ras_parse::proofs::Readings::reading))]
fn tiles(alloc: Global, cursor: &mut Cursor<'_>) -> Result<Option<List<u64>>, Stop>
    ensures { Reads (spec.optional_after_word (codes "tiles") spec.extents_read) cursor.old result cursor.new }
{
    match type_word(cursor, b"tiles") {
        Some(_) => Ok(Some(extents(alloc, cursor)?)),
        None => Ok(None),
    }
}

/// `|[ "null" nulls ]|`
#[tactic(auto, using(ras_parse::proofs::Readings::reading))]
fn null_set(alloc: Global, cursor: &mut Cursor<'_>) -> Result<Option<List<(i128, i128)>>, Stop>
    ensures { Reads (spec.optional_after_word (codes "null") spec.nulls_read) cursor.old result cursor.new }
{
    match type_word(cursor, b"null") {
        Some(_) => Ok(Some(nulls(alloc, cursor)?)),
        None => Ok(None),
    }
}

/// `cells bounds |[ "tiles" extents ]| |[ "null" nulls ]|`
#[tactic(auto, using(ras_parse::proofs::Readings::reading))]
fn draft_rest(alloc: Global, cursor: &mut Cursor<'_>, name: Name) -> Result<Draft, Stop>
    ensures { Reads (type_rest name) cursor.old result cursor.new }
{
    let cells = cells(alloc, cursor)?;
    let bounds = bounds(alloc, cursor)?;
    let extents = tiles(alloc, cursor)?;
    let nulls = null_set(alloc, cursor)?;
    Ok(Draft::of(name, cells, bounds, extents, nulls))
}

/// `typeline := "type" name "=" cells bounds |[ "tiles" extents ]| |[ "null" nulls ]|`
#[tactic(auto, using(ras_parse::proofs::Readings::reading))]
pub fn draft(alloc: Global, cursor: &mut Cursor<'_>) -> Result<Draft, Stop>
    ensures { Reads spec.type_read cursor.old result cursor.new }
{
    let Some(_) = type_word(cursor, b"type") else {
        return Err(Stop::Unexpected);
    };
    let Some(bytes) = free_name(cursor) else {
        return Err(Stop::Unexpected);
    };
    let name = Name::of(alloc, bytes)?;
    cursor.expect_sign(b"=")?;
    draft_rest(alloc, cursor, name)
}
