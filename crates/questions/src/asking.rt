// One question, and claims asked line by line.
ghost use Rattle.std.specs.Prelude.{ℕ, ◌≡◌, ◌+◌, ◌^◌, ◌<◌, IfSome};
ghost use Rattle.questions.specs.Asking.{asked, found_at};

// The refusal, unless the question is met: a `?` behind it asks the next only then.
pub fn ask<R: Copy>(met: bool, refusal: R) -> Result<(), R>
    ensures { result ≡ asked met refusal }
{
    if met { Ok(()) } else { Err(refusal) }
}

// The refusal of the line of the first claim that is not so, if there is one: its place is counted from
// 0, and the claim at 0 stands on this line. `told` is what `refuse` makes of a line.
pub fn refused_at<R, F: Fn(u64) -> R>(place: Option<usize>, line: usize, refuse: F) -> Result<(), R>
    requires fits { IfSome place (λ i. i + line < 2 ^ 64) }
    requires callable { F.IsAlwaysCallable refuse }
    ensures { (told : ℕ → R) → ((l : ℕ) (r : R) → l < 2 ^ 64 → F.post refuse l r → r ≡ told l) → result ≡ found_at told line place }
{
    match place {
        Some(i) => Err(refuse((i + line) as u64)),
        None => Ok(()),
    }
}
