// The reverse of a dart.
#![tactic(auto)]

ghost use Rattle.std.specs.Prelude.{◌≡◌, ◌+◌, ◌^◌, ◌<◌};
ghost use Rattle.rules.specs.Terms.{reverse};

// The reverse of dart d.
pub fn reverse(d: usize) -> usize
    requires { d + 1 < 2 ^ 64 }
    ensures { result ≡ reverse d }
{
    d + 1 - 2 * (d % 2)
}
