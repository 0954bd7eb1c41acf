//! The check of each statement of a workload.
ghost use Rattle.std.specs.Prelude.{◌≡◌, IfOk};
ghost use Rattle.ras_setup.specs.Found.{IsWorkload};
ghost use Rattle.spec_workloads.specs.Setup.{WorkloadValue};
ghost use Rattle.ras_commands.specs.Checks.{AreChecksOf, AreSessionsOf, IsCheckOf, IsFormCheck, checks_of, is_word};

use crate::checks::{Checks, StatementCheck};
use ras_catalog::CheckError;
use ras_domain::{List, Text};
use ras_named::check_in_store;
use ras_parse::lists::push;
use ras_parse::{ParseFault, parse_statement};
use ras_store::{Store, Workload};
use ras_syntax::{Script, Statement, StatementForm, Types};
use std::alloc::{AllocError, Global};

/// What the check says of each statement of each session of a workload, over its base. Each statement is checked by
/// itself, and nothing is run. The error is want of memory, or that a statement's text has 2^32 bytes or more.
pub fn check_workload(alloc: Global, workload: &Workload) -> Result<Checks, AllocError>
    ensures { IfOk result (λ checks. (value : WorkloadValue) → IsWorkload value workload.now → checks.sessions ≡ checks_of value) }
{
    let scripts = workload.scripts.as_slice();
    let sessions = check_scripts(alloc, &workload.types, &workload.base, scripts)?;
    Ok(Checks { sessions })
}

fn check_scripts(
    alloc: Global,
    types: &Types,
    base: &Store,
    scripts: &[Script],
) -> Result<List<List<StatementCheck>>, AllocError>
    ensures { IfOk result (AreSessionsOf types.now base.now scripts.now) }
{
    let mut sessions = List::new(alloc);
    for script in scripts {
        let checks = check_texts(alloc, types, base, script.statements.as_slice())?;
        push(alloc, &mut sessions, checks)?;
    }
    Ok(sessions)
}

fn check_texts(
    alloc: Global,
    types: &Types,
    base: &Store,
    texts: &[Text],
) -> Result<List<StatementCheck>, AllocError>
    ensures { IfOk result (AreChecksOf types.now base.now texts.now) }
{
    let mut checks = List::new(alloc);
    for text in texts {
        let check = check_text(alloc, types, base, text.bytes())?;
        push(alloc, &mut checks, check)?;
    }
    Ok(checks)
}

fn check_text(
    alloc: Global,
    types: &Types,
    base: &Store,
    text: &[u8],
) -> Result<StatementCheck, AllocError>
    ensures { IfOk result (IsCheckOf types.now base.now text.now) }
{
    if u32::try_from(text.len()).is_err() {
        return Err(AllocError);
    }
    match parse_statement(alloc, text) {
        Ok(statement) => {
            let check = check_statement(alloc, types, base, &statement);
            drop(statement);
            check
        }
        Err(ParseFault::Fault(fault)) => Ok(StatementCheck::Syntax(fault)),
        Err(ParseFault::Memory) => Err(AllocError),
    }
}

/// A session word is fine wherever it stands.
fn check_statement(
    alloc: Global,
    types: &Types,
    base: &Store,
    statement: &Statement,
) -> Result<StatementCheck, AllocError>
    ensures { IfOk result (IsFormCheck types.now base.now statement.now) }
{
    if is_word(&statement.form) {
        return Ok(StatementCheck::Fine);
    }
    match check_in_store(alloc, statement, types, base) {
        Ok(checked) => {
            drop(checked);
            Ok(StatementCheck::Fine)
        }
        Err(CheckError::Fault { span, fault }) => Ok(StatementCheck::Fault { span, fault }),
        Err(CheckError::Memory) => Err(AllocError),
    }
}

/// Whether a form is a session word.
fn is_word(form: &StatementForm) -> bool
    ensures { result ≡ is_word form.now }
{
    matches!(form, StatementForm::Word(_))
}
