//! What comes next in a session's script.
ghost use Rattle.std.specs.Prelude.{◌≡◌, IfOk, option_copied, option_map};
ghost use Rattle.ras_parse.specs.Told.{IsTold};
ghost use Rattle.ras_walk.specs.Places.{item_seen};
ghost use Rattle.law_grammar.specs.VerdictOf.{verdict_of};
ghost use Rattle.spec_histories.specs.History.{nth};
ghost use Rattle.spec_sessions.specs.Walk.{item_of_form};
ghost use Rattle.ras_session.specs.Steps.{IsNextRead};
ghost use Rattle.ras_session.specs.Tied.{IsNextStatement, script_in};

use crate::session::Session;
use ras_domain::Text;
use ras_parse::{ParseFault, parse_statement};
use ras_store::Workload;
use ras_syntax::{Script, Statement, StatementForm};
use ras_walk::Item;
use std::alloc::{AllocError, Global};

/// The script of a number, counted from 1.
fn numbered_script(scripts: &[Script], number: u32) -> Option<&Script>
    ensures { option_copied result ≡ nth number scripts.now }
{
    match number.checked_sub(1) {
        Some(place) => scripts.get(place as usize),
        None => None,
    }
}

/// The text of a number, counted from 1.
fn numbered_text(texts: &[Text], k: u32) -> Option<&Text>
    ensures { option_copied result ≡ nth k texts.now }
{
    match k.checked_sub(1) {
        Some(place) => texts.get(place as usize),
        None => None,
    }
}

/// The text of a session's statement.
fn text_at(workload: &Workload, number: u32, k: u32) -> Option<&Text>
    ensures { option_map verdict_of (option_copied result) ≡ nth k (script_in workload.now number) }
{
    match numbered_script(workload.scripts.as_slice(), number) {
        Some(script) => numbered_text(script.statements.as_slice(), k),
        None => None,
    }
}

/// The statement that a text is. A text of 2^32 bytes or more is not read for want of memory.
fn statement_of(alloc: Global, text: &Text) -> Result<Statement, ParseFault>
    ensures { IsTold (verdict_of text.now) result }
{
    let bytes = text.bytes();
    if bytes.len() > 4_294_967_295 {
        return Err(ParseFault::Memory);
    }
    parse_statement(alloc, bytes)
}

/// A statement, as what comes next.
pub(crate) fn item_of(statement: &Statement) -> Item
    ensures { item_seen result ≡ item_of_form statement.now.form }
{
    match &statement.form {
        StatementForm::Word(word) => Item::Word(*word),
        _ => Item::Data,
    }
}

impl Session {
    /// What comes next. A statement is read once, and kept. The error is want of memory.
    pub(crate) fn read(&mut self, alloc: Global, workload: &Workload) -> Result<Item, AllocError>
        ensures number { self.new.number ≡ self.old.number }
        ensures read { IfOk result (λ item. IsNextStatement (script_in workload.now self.old.number) self.old.next self.old.statement
            → IsNextRead (script_in workload.now self.old.number) self.old self.new item) }
    {
        if let Some(statement) = &self.statement {
            return Ok(item_of(statement));
        }
        let Some(text) = text_at(workload, self.number, self.next) else {
            return Ok(Item::End);
        };
        match statement_of(alloc, text) {
            Ok(statement) => {
                let item = item_of(&statement);
                drop(self.statement.replace(statement));
                Ok(item)
            }
            Err(ParseFault::Fault(fault)) => Ok(Item::Fault(fault)),
            Err(ParseFault::Memory) => Err(AllocError),
        }
    }
}
