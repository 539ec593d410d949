// The flags that a rule is read with.
ghost use Rattle.std.specs.Prelude.{◌≡◌};
ghost use Rattle.syntax.specs.Flags.{dot_all, multiline, ignore_case, extended, depot};

// Any number: whether it has a bit that is no flag's is asked where a call is judged.
#[derive(Clone, Copy, Debug, PartialEq, Eq)]
pub struct Flags(pub u32);

impl Flags {
    // `s`: whether a dot takes every byte
    pub fn dot_takes_all(self) -> bool
        ensures { result ≡ dot_all self.0 }
    {
        self.0 % 2 == 1
    }

    // `m`: whether `^` and `$` hold at lines too
    pub fn is_multiline(self) -> bool
        ensures { result ≡ multiline self.0 }
    {
        self.0 / 2 % 2 == 1
    }

    // `i`
    pub fn ignores_case(self) -> bool
        ensures { result ≡ ignore_case self.0 }
    {
        self.0 / 4 % 2 == 1
    }

    // `x`: whether blanks and comments are skipped
    pub fn is_extended(self) -> bool
        ensures { result ≡ extended self.0 }
    {
        self.0 / 8 % 2 == 1
    }

    // whether the rule is held to the depot profile
    pub fn in_depot(self) -> bool
        ensures { result ≡ depot self.0 }
    {
        self.0 / 16 % 2 == 1
    }
}
