//! The forms of statements, each from behind its first word on.
ghost use Rattle.spec_grammar.specs.Grammar.{any, w, s};
ghost use Rattle.law_grammar.specs.Reading as read;
ghost use Rattle.law_grammar.specs.Reading.{reads};
ghost use Rattle.ras_parse.specs.Forms.{word_form, short_form};
ghost use Rattle.ras_parse.specs.Inputs.{Reads};

use crate::cursor::Cursor;
use crate::grammar::{Grammar, Level};
use crate::lists::{one, push};
use crate::stop::Stop;
use crate::whole::expression;
use ras_domain::List;
use ras_syntax::{Axis, Expr, SourceName, Span, Spanned, StatementForm, Word};
use std::alloc::Global;

/// How deep expressions may nest: deeper than the tokens at any text's front weigh.
pub const DEPTH: usize = ras_syntax::MAX_WEIGHT as usize + 3;

/// Any expression.
#[tactic(auto, using(crate::proofs::Readings::reading))]
fn expr(alloc: Global, cursor: &mut Cursor<'_>) -> Result<Expr, Stop>
    ensures { Reads (reads DEPTH any) cursor.old result cursor.new }
{
    let e = expression(alloc, cursor, DEPTH, Level::Any)?;
    Ok(e.into_inner())
}

/// `axis {{ "," axis }} "]"`
fn index_rest(alloc: Global, cursor: &mut Cursor<'_>) -> Result<List<Axis>, Stop>
    ensures { Reads (read.index_rest (reads DEPTH)) cursor.old result cursor.new }
{
    let grammar = Grammar {
        alloc,
        depth: DEPTH,
        read: expression,
    };
    grammar.index_rest(cursor)
}

/// `|[ "as" name ]|`
#[tactic(auto, using(crate::proofs::Readings::reading))]
fn iterator(alloc: Global, cursor: &mut Cursor<'_>) -> Result<Option<Spanned>, Stop>
    ensures { Reads (read.optional_after (w "as") read.named_read) cursor.old result cursor.new }
{
    if cursor.word(b"as") {
        Ok(Some(cursor.placed_name(alloc)?))
    } else {
        Ok(None)
    }
}

/// `source := name |[ "as" name ]|`
#[tactic(auto, using(crate::proofs::Readings::reading))]
fn source(alloc: Global, cursor: &mut Cursor<'_>) -> Result<SourceName, Stop>
    ensures { Reads read.source_read cursor.old result cursor.new }
{
    let collection = cursor.placed_name(alloc)?;
    let iterator = iterator(alloc, cursor)?;
    Ok(SourceName {
        collection,
        iterator,
    })
}

/// `source {{ "," source }}`
fn sources(alloc: Global, cursor: &mut Cursor<'_>) -> Result<List<SourceName>, Stop>
    ensures { Reads (read.comma_list read.any_count read.source_read) cursor.old result cursor.new }
{
    let first = source(alloc, cursor)?;
    let mut sources = one(alloc, first)?;
    while cursor.sign(b",") {
        let source = source(alloc, cursor)?;
        push(alloc, &mut sources, source)?;
    }
    Ok(sources)
}

/// `|[ "where" expr ]|`
#[tactic(auto, using(crate::proofs::Readings::reading))]
fn condition(alloc: Global, cursor: &mut Cursor<'_>) -> Result<Option<Expr>, Stop>
    ensures { Reads (read.condition (reads DEPTH)) cursor.old result cursor.new }
{
    if cursor.word(b"where") {
        Ok(Some(expr(alloc, cursor)?))
    } else {
        Ok(None)
    }
}

/// `select := "select" expr |[ "from" source {{ "," source }} |[ "where" expr ]| ]|`
#[tactic(auto, using(crate::proofs::Readings::reading))]
fn select_rest(alloc: Global, cursor: &mut Cursor<'_>) -> Result<StatementForm, Stop>
    ensures { Reads (read.select_rest (reads DEPTH)) cursor.old result cursor.new }
{
    let body = expr(alloc, cursor)?;
    if !cursor.word(b"from") {
        return Ok(StatementForm::Select {
            body,
            sources: List::new(alloc),
            cond: None,
        });
    }
    let sources = sources(alloc, cursor)?;
    let cond = condition(alloc, cursor)?;
    Ok(StatementForm::Select {
        body,
        sources,
        cond,
    })
}

/// `insert := "insert" "into" name "values" expr`
#[tactic(auto, using(crate::proofs::Readings::reading))]
fn insert_rest(alloc: Global, cursor: &mut Cursor<'_>) -> Result<StatementForm, Stop>
    ensures { Reads (read.insert_rest (reads DEPTH)) cursor.old result cursor.new }
{
    cursor.expect_word(b"into")?;
    let into = cursor.placed_name(alloc)?;
    cursor.expect_word(b"values")?;
    let body = expr(alloc, cursor)?;
    Ok(StatementForm::Insert { into, body })
}

/// `delete := "delete" "from" name |[ "as" name ]| |[ "where" expr ]|`
#[tactic(auto, using(crate::proofs::Readings::reading))]
fn delete_rest(alloc: Global, cursor: &mut Cursor<'_>) -> Result<StatementForm, Stop>
    ensures { Reads (read.delete_rest (reads DEPTH)) cursor.old result cursor.new }
{
    cursor.expect_word(b"from")?;
    let source = source(alloc, cursor)?;
    let cond = condition(alloc, cursor)?;
    Ok(StatementForm::Delete { source, cond })
}

/// The axes that a target is written with.
#[tactic(auto, using(crate::proofs::Readings::reading))]
fn axes(alloc: Global, cursor: &mut Cursor<'_>) -> Result<Option<List<Axis>>, Stop>
    ensures { Reads (read.optional_after (s "[") (read.index_rest (reads DEPTH))) cursor.old result cursor.new }
{
    if cursor.sign(b"[") {
        Ok(Some(index_rest(alloc, cursor)?))
    } else {
        Ok(None)
    }
}

/// The name after `set` with its axes, and the span of both.
#[tactic(auto, using(crate::proofs::Readings::reading))]
fn target(
    alloc: Global,
    cursor: &mut Cursor<'_>,
) -> Result<(Spanned, Option<List<Axis>>, Span), Stop>
    ensures { Reads (read.target (reads DEPTH)) cursor.old result cursor.new }
{
    let start = cursor.at();
    let set = cursor.placed_name(alloc)?;
    let axes = axes(alloc, cursor)?;
    let span = cursor.span(start);
    Ok((set, axes, span))
}

/// `update := "update" name |[ "as" name ]| "set" name |[ index ]| "assign" expr |[ "where" expr ]|`
#[tactic(auto, using(crate::proofs::Readings::reading))]
fn update_rest(alloc: Global, cursor: &mut Cursor<'_>) -> Result<StatementForm, Stop>
    ensures { Reads (read.update_rest (reads DEPTH)) cursor.old result cursor.new }
{
    let source = source(alloc, cursor)?;
    cursor.expect_word(b"set")?;
    let (set, axes, target) = target(alloc, cursor)?;
    cursor.expect_word(b"assign")?;
    let body = expr(alloc, cursor)?;
    let cond = condition(alloc, cursor)?;
    Ok(StatementForm::Update {
        source,
        set,
        axes,
        target,
        body,
        cond,
    })
}

/// `create := "create" "collection" name name`
#[tactic(auto, using(crate::proofs::Readings::reading))]
fn create_rest(alloc: Global, cursor: &mut Cursor<'_>) -> Result<StatementForm, Stop>
    ensures { Reads (read.create_rest (reads DEPTH)) cursor.old result cursor.new }
{
    cursor.expect_word(b"collection")?;
    let name = cursor.placed_name(alloc)?;
    let of = cursor.placed_name(alloc)?;
    Ok(StatementForm::Create { name, of })
}

/// `drop := "drop" "collection" name`
#[tactic(auto, using(crate::proofs::Readings::reading))]
fn drop_rest(alloc: Global, cursor: &mut Cursor<'_>) -> Result<StatementForm, Stop>
    ensures { Reads (read.drop_rest (reads DEPTH)) cursor.old result cursor.new }
{
    cursor.expect_word(b"collection")?;
    let name = cursor.placed_name(alloc)?;
    Ok(StatementForm::Drop { name })
}

/// `begin |[ "retry" number ]|`, the number being 1 to 1000 without a suffix
#[tactic(auto, using(crate::proofs::Readings::reading))]
fn begin_rest(cursor: &mut Cursor<'_>) -> Result<StatementForm, Stop>
    ensures { Reads (read.begin_rest (reads DEPTH)) cursor.old result cursor.new }
{
    if !cursor.word(b"retry") {
        return Ok(StatementForm::Word(Word::Begin { retry: 0 }));
    }
    match cursor.retries() {
        Some(retry) => Ok(StatementForm::Word(Word::Begin { retry })),
        None => Err(Stop::Unexpected),
    }
}

/// `commit |[ "anyway" ]|`
#[tactic(auto, using(crate::proofs::Readings::reading))]
fn commit_rest(cursor: &mut Cursor<'_>) -> StatementForm
    ensures { Reads (read.commit_rest (reads DEPTH)) cursor.old (Ok result) cursor.new }
{
    let anyway = cursor.word(b"anyway");
    StatementForm::Word(Word::Commit { anyway })
}

/// `word := "begin" .. | "commit" .. | "abort"`
fn word_form(cursor: &mut Cursor<'_>) -> Result<StatementForm, Stop>
    ensures { Reads (word_form (reads DEPTH)) cursor.old result cursor.new }
{
    if cursor.word(b"begin") {
        return begin_rest(cursor);
    }
    if cursor.word(b"commit") {
        return Ok(commit_rest(cursor));
    }
    cursor.expect_word(b"abort")?;
    Ok(StatementForm::Word(Word::Abort))
}

/// `create | drop | word`
fn short_form(alloc: Global, cursor: &mut Cursor<'_>) -> Result<StatementForm, Stop>
    ensures { Reads (short_form (reads DEPTH)) cursor.old result cursor.new }
{
    if cursor.word(b"create") {
        return create_rest(alloc, cursor);
    }
    if cursor.word(b"drop") {
        return drop_rest(alloc, cursor);
    }
    word_form(cursor)
}

/// `statement := select | insert | delete | update | create | drop | word`
pub fn form(alloc: Global, cursor: &mut Cursor<'_>) -> Result<StatementForm, Stop>
    ensures { Reads (read.form_read (reads DEPTH)) cursor.old result cursor.new }
{
    if cursor.word(b"select") {
        return select_rest(alloc, cursor);
    }
    if cursor.word(b"insert") {
        return insert_rest(alloc, cursor);
    }
    if cursor.word(b"delete") {
        return delete_rest(alloc, cursor);
    }
    if cursor.word(b"update") {
        return update_rest(alloc, cursor);
    }
    short_form(alloc, cursor)
}
