//! Null sets.
ghost use Rattle.std.specs.Prelude.{◌≡◌, ◌≤◌, int_lt, length};
ghost use Rattle.std.specs.List.{list_all};
ghost use Rattle.ras_cells.specs.Atoms.{is_in_range};
ghost use Rattle.ras_cells.specs.declared.TheConstants.{MAX_NULLS as MOST_NULLS};
ghost use Rattle.spec_workloads.specs.TypeLines as spec;
ghost use Rattle.ras_workload.specs.Kept.{IfPasses, are_nulls, is_null_of};

use ras_cells::{Atom, CellType, MAX_NULLS, NullSet};

/// A number of an atom.
fn number_of(atom: Atom, number: i128) -> Option<i64>
    ensures { IfPasses (is_in_range atom number) number result }
{
    let Ok(number) = i64::try_from(number) else {
        return None;
    };
    if atom.contains(number) {
        Some(number)
    } else {
        None
    }
}

/// An interval of an atom's numbers.
fn null_of(atom: Atom, ends: (i128, i128)) -> Option<(i64, i64)>
    ensures { IfPasses (is_null_of atom ends) ends result }
{
    let lo = number_of(atom, ends.0)?;
    let hi = number_of(atom, ends.1)?;
    if lo <= hi { Some((lo, hi)) } else { None }
}

/// Whether each interval ends before those behind it begin.
fn are_apart(mut nulls: &[(i64, i64)]) -> bool
    ensures { result ≡ spec.are_all_apart (λ a b. int_lt a.1 b.0) nulls.entry.now }
{
    while let [first, others @ ..] = nulls {
        if !is_before_all(*first, others) {
            return false;
        }
        nulls = others;
    }
    true
}

/// Whether an interval ends before each of these begins.
fn is_before_all(ends: (i64, i64), others: &[(i64, i64)]) -> bool
    ensures { result ≡ list_all (λ other. int_lt ends.1 other.0) others.now }
{
    others.iter().all(|other| ends.1 < other.0)
}

/// The intervals of an atom's numbers, of which there are few.
fn atom_nulls(atom: Atom, nulls: &[(i128, i128)]) -> Option<NullSet>
    requires { length nulls.now ≤ MOST_NULLS }
    ensures { IfPasses (list_all (is_null_of atom) nulls.now) (record { items = nulls.now }) result }
{
    let mut kept = NullSet::new();
    for ends in nulls {
        let Some(ends) = null_of(atom, *ends) else {
            return None;
        };
        kept.push(ends);
    }
    Some(kept)
}

/// The null set of cells of a type, if it is one.
pub fn nulls_of(cell: &CellType, nulls: &[(i128, i128)]) -> Option<NullSet>
    ensures { IfPasses (are_nulls cell.now nulls.now) (record { items = nulls.now }) result }
{
    if nulls.len() > MAX_NULLS {
        return None;
    }
    match cell {
        CellType::Atom(atom) => {
            let kept = atom_nulls(*atom, nulls)?;
            if are_apart(kept.as_slice()) {
                Some(kept)
            } else {
                None
            }
        }
        CellType::Composite(_) if nulls.is_empty() => Some(NullSet::new()),
        CellType::Composite(_) => None,
    }
}
