//! Null flags: one for each place, or none at all where no place is null.
ghost use Rattle.std.specs.Prelude.{◌≡◌, ◌||◌, ℕ, length};
ghost use Rattle.ras_kernel.specs.Runs.{AreFlagsOf, is_null};

/// A place is null where it is null in a or in b.
pub(crate) fn join(a: &[bool], b: &[bool], out: &mut [bool])
    requires a { AreFlagsOf a.now (length out.old) }
    requires b { AreFlagsOf b.now (length out.old) }
    ensures { (i : ℕ) → is_null out.new i ≡ (is_null a.now i || is_null b.now i) }
{
    match (a.is_empty(), b.is_empty()) {
        (true, true) => out.fill(false),
        (true, false) => out.copy_from_slice(b),
        (false, true) => out.copy_from_slice(a),
        (false, false) => join_each(a, b, out),
    }
}

/// The same where each place has a flag in both.
fn join_each(a: &[bool], b: &[bool], out: &mut [bool])
    requires a { length a.now ≡ length out.old }
    requires b { length b.now ≡ length out.old }
    ensures { (i : ℕ) → is_null out.new i ≡ (is_null a.now i || is_null b.now i) }
{
    for i in 0..out.len() {
        out[i] = a[i] | b[i];
    }
}

/// Whether a place is null.
pub(crate) fn is_null_at(nulls: &[bool], place: usize) -> bool
    ensures { result ≡ is_null nulls.now place }
{
    nulls.get(place).copied().unwrap_or(false)
}
