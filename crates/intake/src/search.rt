// The smallest place where a test holds.
ghost use Rattle.std.specs.Prelude.{◌≡◌, ℕ, Bool, ◌<◌};
ghost use Rattle.intake.specs.Search.{first};

// The smallest place below n where the test holds, if any. A loop: tried as `(0..n).find(test)`, it leaves a goal that no short answer closes.
pub fn first<F: Fn(usize) -> bool>(n: usize, test: F) -> Option<usize>
    requires { (k : ℕ) → k < n → F.pre test k }
    ensures { (p : ℕ → Bool) → ((k : ℕ) (b : Bool) → k < n → F.post test k b → b ≡ p k) → result ≡ first p n }
{
    for k in 0..n {
        if test(k) {
            return Some(k);
        }
    }
    None
}
