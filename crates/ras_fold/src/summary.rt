ghost use Rattle.std.specs.Prelude.{◌≡◌, ◌+◌, ◌≤◌, [], List, ℤ, length, option_to_list};
ghost use Rattle.ras_cells.specs.Runs.{IsRunOf};
ghost use Rattle.ras_cells.specs.Runs.{HasLength};
ghost use Rattle.ras_fold.specs.Summary.{AddsFault, AddsNumbers, IsClosed, IsMerged, earlier_of, summary_of};

use crate::MAX_NUMBERS;
use crate::kept::{closed, join, kept_of_none, kept_of_one};
use crate::runs::kept_of_run;
use ras_cells::{Cell, CellFault, Run};
use ras_syntax::FoldOp;
use std::marker::Model;

/// What is kept of numbers and faults, in a few words of memory: enough to add more, to merge it
/// with another, and to give the fold of all.
#[derive(Debug, Drop)]
pub struct Summary {
    op: FoldOp,
    count: u32,
    /// The sum, the product, the least, the greatest or the truth value of the numbers. None where
    /// there is none, or where a product has grown too large for any number but 0 to bring back.
    kept: Option<i128>,
    fault: Option<(u64, CellFault)>,
}

impl Model for Summary {
    ghost use Rattle.std.specs.Prelude.{◌≤◌};
    ghost use Rattle.ras_fold.specs.declared.TheConstants.{MAX_NUMBERS};
    ghost use Rattle.ras_fold.specs.Kept.{IsKeptOf};
    ghost use Rattle.ras_fold.specs.Summary.{SummaryValue};

    ghost Value = { SummaryValue };

    ghost view = { λ s. record {
      op = s.op;
      count = s.count;
      kept = s.kept;
      fault = s.fault;
    } };

    ghost invariant = { λ s. (s.count ≤ MAX_NUMBERS) × IsKeptOf s.op s.count s.kept };
}

impl Summary {
    /// The summary of nothing.
    pub fn empty(op: FoldOp) -> Summary
        ensures { result ≡ summary_of op [] [] }
    {
        Summary {
            op,
            count: 0,
            kept: kept_of_none(op),
            fault: None,
        }
    }

    /// Adds a number; a null is skipped.
    pub fn add_number(&mut self, n: Option<i64>)
        requires { self.old.count + length (option_to_list n) ≤ MAX_NUMBERS }
        ensures adds { AddsNumbers self.old self.new (option_to_list n) }
        ensures op { self.new.op ≡ self.old.op }
        ensures count { self.new.count ≡ self.old.count + length (option_to_list n) }
    {
        if let Some(number) = n {
            self.kept = join(self.op, self.kept, kept_of_one(self.op, number));
            self.count += 1;
        }
    }

    /// Adds the numbers of a run. `times` is how many there are; a run that is kept as one number
    /// has it so often.
    pub fn add_run(&mut self, run: &Run<'_>, times: u64)
        requires length { HasLength run.now times }
        requires count { self.old.count + times ≤ MAX_NUMBERS }
        ensures adds { (numbers : List ℤ) → IsRunOf numbers run.now → length numbers ≡ times
            → AddsNumbers self.old self.new numbers }
        ensures op { self.new.op ≡ self.old.op }
        ensures count { self.new.count ≡ self.old.count + times }
    {
        self.kept = join(self.op, self.kept, kept_of_run(self.op, run, times));
        self.count += times as u32;
    }

    /// Adds the fault at a place. Of two at one place the one that was added first counts.
    pub fn add_fault(&mut self, place: u64, fault: CellFault)
        ensures adds { AddsFault self.old self.new (place, fault) }
        ensures op { self.new.op ≡ self.old.op }
        ensures count { self.new.count ≡ self.old.count }
    {
        self.fault = earlier(self.fault, Some((place, fault)));
    }

    /// The summary of what was added to `self` and then of what was added to `other`.
    pub fn merge(self, other: Summary) -> Summary
        requires op { self.op ≡ other.op }
        requires count { self.count + other.count ≤ MAX_NUMBERS }
        ensures merged { IsMerged self other result }
        ensures op { result.op ≡ self.op }
        ensures count { result.count ≡ self.count + other.count }
    {
        Summary {
            op: self.op,
            count: self.count + other.count,
            kept: join(self.op, self.kept, other.kept),
            fault: earlier(self.fault, other.fault),
        }
    }

    /// The fault of least place, or else the fold of all numbers: [`CellFault::Overflow`] where the
    /// exact sum or product leaves 64 bits, null for the least or the greatest of none.
    pub fn close(&self) -> Result<Cell, CellFault>
        ensures { IsClosed self.now result }
    {
        match self.fault {
            Some((_, fault)) => Err(fault),
            None => closed(self.op, self.kept),
        }
    }
}

/// The fault of the lesser place, and of two at one place the first.
fn earlier(
    first: Option<(u64, CellFault)>,
    second: Option<(u64, CellFault)>,
) -> Option<(u64, CellFault)>
    ensures { result ≡ earlier_of first second }
{
    match (first, second) {
        (Some(x), Some(y)) if y.0 < x.0 => second,
        (Some(_), _) => first,
        (None, _) => second,
    }
}
