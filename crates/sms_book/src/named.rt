//! Lists in which no two places may have one name.

ghost use Rattle.std.specs.Prelude.{ℕ, ◌<◌, length, map, IfSome, IsNone};
ghost use Rattle.sms_book.specs.Openings.{HaveOneName};

/// What has a name: an account's opening, or a rate by its prefix.
pub trait Named {
    ghost use Rattle.std.specs.Prelude.{◌≡◌, ℕ, List};

    ghost name: { Self → List ℕ };

    fn name(&self) -> &str
        ensures { result.now ≡ name self.now };
}

/// The first place before this one that has its name.
pub fn first_like<T: Named>(items: &[T], second: usize) -> Option<usize>
    requires { second < length items.now }
    ensures found { IfSome result (λ first. HaveOneName (map T.name items.now) first second × ((x : ℕ) → x < first → ¬ (HaveOneName (map T.name items.now) x second))) }
    ensures none { IsNone result → (x : ℕ) → ¬ (HaveOneName (map T.name items.now) x second) }
{
    for first in 0..second {
        if items[first].name() == items[second].name() {
            return Some(first);
        }
    }
    None
}
