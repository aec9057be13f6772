// The first record of a table that breaks its rule.
ghost use Rattle.std.specs.Prelude.{◌≡◌, ℕ, Bool, if◌then◌else◌, Some, None};
ghost use Rattle.std.specs.Option.{option_or};
ghost use Rattle.std.specs.Result.{result_err};
ghost use Rattle.rules.specs.Lists.{TestsBelow, first_failing, rest_from, refused};

use component::fault::{Fault, Reason};

// The first of `size` records that breaks the rule. A loop: tried with `find`, and the
// proof did not close for a closure that the caller passes.
pub fn first_failing<F: Fn(usize) -> bool>(size: usize, keeps: F) -> Option<usize>
    requires { F.IsAlwaysCallable keeps }
    ensures { (p : ℕ → Bool) → TestsBelow (F.post keeps) p size → result ≡ first_failing p size }
{
    for n in 0..size {
        if !keeps(n) {
            return Some(n);
        }
    }
    None
}

// What was found, or else record `n` where it fails.
pub fn note_failing(found: Option<usize>, keeps: bool, n: usize) -> Option<usize>
    ensures { result ≡ option_or found (if keeps then None else Some n) }
{
    found.or((!keeps).then_some(n))
}

// The first of `size` records from `end` on.
pub fn rest_from(end: usize, size: usize) -> Option<usize>
    ensures { result ≡ rest_from end size }
{
    (end < size).then_some(end)
}

// A refusal at a place, if there is one.
pub fn refuse(reason: Reason, place: Option<usize>) -> Result<(), Fault>
    ensures { result_err result ≡ refused reason place }
{
    place.map_or(Ok(()), |place| Err(Fault { reason, place }))
}
