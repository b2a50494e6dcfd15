//! Numbers below a limit: the lowest that passes a test.
ghost use Rattle.std.specs.Prelude.{ℕ, Bool};
ghost use Rattle.whole.specs.Counting.{Computes, FindsLowest};

/// The lowest number below `n` that passes, if there is one.
pub fn lowest<F: Fn(usize) -> bool>(n: usize, passes: F) -> Option<usize>
    requires { F.IsAlwaysCallable passes }
    ensures { (f : ℕ → Bool) → Computes n (F.post passes) f → FindsLowest n f result }
{
    (0..n).find(|i| passes(*i))
}
