//! Conditions in the order in which a certificate has them.

ghost use Rattle.std.specs.Prelude.{◌≡◌, ◌≤◌};
ghost use Rattle.td_certificate.specs.Text.{level_byte};
ghost use Rattle.td_certificate.specs.Accepts.{form_order, is_before, are_fit};

use td_gates::Level;
use td_refutation::NamedCondition;
use td_spans::Form;

/// The number by which a condition stands among others on its net, by the bytes of its form.
fn form_order(form: Form) -> u32
    ensures { result ≡ form_order form }
{
    match form {
        Form::Levels(first, second) => 256 * level_byte(first) + level_byte(second),
        Form::Equal => 256 * 61 + 61,
    }
}

fn level_byte(level: Level) -> u32
    ensures is { result ≡ level_byte level }
    ensures small { result ≤ 49 }
{
    match level {
        Level::Zero => 48,
        Level::One => 49,
        Level::X => 46,
    }
}

fn is_before(this: NamedCondition, that: NamedCondition) -> bool
    ensures { result ≡ is_before this that }
{
    this.net < that.net || (this.net == that.net && form_order(this.form) < form_order(that.form))
}

/// Whether conditions rise, and each is on an input or a gate's output, where there are this many
/// nets.
pub fn are_fit(count: u64, keep: &[NamedCondition]) -> bool
    ensures { result ≡ are_fit count keep.now }
{
    let mut rest = keep;
    'conditions: loop {
        match rest {
            [] => return true,
            [this] => return 2 <= this.net && this.net < count,
            [this, that, ..] => {
                if !(2 <= this.net && is_before(*this, *that)) {
                    return false;
                }
                rest = &rest[1..];
            }
        }
    }
}
