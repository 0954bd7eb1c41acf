//! What the cuts of an update's target name.
ghost use Rattle.std.specs.Prelude.{◌≡◌};
ghost use Rattle.ras_shape.specs.Cuts.{cut_found};
ghost use Rattle.spec_expressions.specs.Shape.{is_empty_cut as is_empty_cut_of};
ghost use Rattle.spec_statements.specs.Plans.{is_broken_target as is_broken_cut, target_interval};

use ras_domain::Interval;
use ras_shape::Cut;

/// Whether the cut names no coordinates of 32 bits.
pub(crate) fn is_broken_target(cut: Cut) -> bool
    ensures { result ≡ is_broken_cut (cut_found cut) }
{
    match cut {
        Cut::Fixed(z) => i32::try_from(z).is_err(),
        Cut::Broken => true,
        Cut::Moving | Cut::Between(_, _) => false,
    }
}

/// Whether the cut is a trim whose lower bound exceeds the upper one.
pub(crate) fn is_empty_cut(cut: Cut) -> bool
    ensures { result ≡ is_empty_cut_of (cut_found cut) }
{
    match cut {
        Cut::Between(lo, hi) => hi < lo,
        Cut::Fixed(_) | Cut::Moving | Cut::Broken => false,
    }
}

/// The coordinates that the cut names.
pub(crate) fn interval_of(cut: Cut) -> Interval
    ensures { result ≡ target_interval (cut_found cut) }
{
    match cut {
        Cut::Fixed(z) => Interval { lo: z, hi: z },
        Cut::Between(lo, hi) => Interval { lo, hi },
        Cut::Moving | Cut::Broken => Interval { lo: 0, hi: 0 },
    }
}
