//! Folds, a cell after another.
ghost use Rattle.std.specs.Prelude.{◌≡◌, ◌+◌, ◌≤◌, ◌++◌, [], List, ℤ, option_to_list};
ghost use Rattle.ras_fold.specs.declared.TheConstants.{MAX_NUMBERS};
ghost use Rattle.spec_expressions.specs.Eval.{position_in};
ghost use Rattle.ras_values.specs.Tallies.{HasAdded, rule_of_cells, rule_fold, counted_number};

use crate::operations::number_of;
use ras_cells::{Cell, CellFault};
use ras_fold::Summary;
use ras_syntax::{CellsFold, FoldOp};

/// What a fold makes of numbers.
#[derive(Clone, Copy)]
pub(crate) enum Rule {
    /// An operation goes over the numbers.
    Fold(FoldOp),
    /// It counts those that aren't 0.
    Count,
}

/// The numbers that were added to a fold, in a few words of memory.
#[derive(Drop)]
pub(crate) struct Tally {
    rule: Rule,
    summary: Summary,
}

/// What a fold of all cells of an array makes of their numbers.
pub(crate) fn rule_of(f: CellsFold) -> Rule
    ensures { result ≡ rule_of_cells f }
{
    match f {
        CellsFold::Add => Rule::Fold(FoldOp::Plus),
        CellsFold::Count => Rule::Count,
        CellsFold::AnyTrue => Rule::Fold(FoldOp::Or),
        CellsFold::AllTrue => Rule::Fold(FoldOp::And),
        CellsFold::Min => Rule::Fold(FoldOp::Min),
        CellsFold::Max => Rule::Fold(FoldOp::Max),
    }
}

impl Tally {
    /// No number yet.
    pub(crate) fn new(rule: Rule) -> Tally
        ensures rule { result.rule ≡ rule }
        ensures nothing { HasAdded result [] }
        ensures count { result.summary.count ≡ 0 }
    {
        let op = match rule {
            Rule::Fold(op) => op,
            Rule::Count => FoldOp::Plus,
        };
        Tally {
            rule,
            summary: Summary::empty(op),
        }
    }

    /// Adds the number of a cell; a null is skipped.
    pub(crate) fn add(&mut self, x: &Cell)
        requires { self.old.summary.count + 1 ≤ MAX_NUMBERS }
        ensures rule { self.new.rule ≡ self.old.rule }
        ensures added { (zs : List ℤ) → HasAdded self.old zs → HasAdded self.new (zs ++ option_to_list (position_in x.now)) }
        ensures count { self.new.summary.count ≤ self.old.summary.count + 1 }
    {
        self.summary.add_number(counted(self.rule, number_of(x)));
    }

    /// The fold of the numbers.
    pub(crate) fn close(&self) -> Result<Cell, CellFault>
        ensures { (zs : List ℤ) → HasAdded self.now zs → result ≡ rule_fold self.now.rule zs }
    {
        self.summary.close()
    }
}

/// What is added of a number: itself, or the number of its truth value.
fn counted(rule: Rule, number: Option<i64>) -> Option<i64>
    ensures { result ≡ counted_number rule number }
{
    match (rule, number) {
        (Rule::Count, Some(number)) => Some(i64::from(number != 0)),
        _ => number,
    }
}
