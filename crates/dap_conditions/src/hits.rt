//! Hit conditions, as they are written.
ghost use Rattle.std.specs.Prelude.{◌≡◌};
ghost use Rattle.dap_conditions.specs.HitConditions as hit_conditions;
ghost use Rattle.dap_conditions.specs.HitConditions.{number_of, above, below, equals, hit_condition_of};

use dap_slice::hits::HitCondition;

// A number from 1 to 4,294,967,295 in decimal, with blanks around it.
fn number_of(text: &str) -> Option<u32>
    ensures { result ≡ number_of text.now }
{
    match text.trim().parse::<u32>() {
        Ok(0) => None,
        Ok(number) => Some(number),
        Err(_) => None,
    }
}

fn exactly(text: &str) -> Option<HitCondition>
    ensures { result ≡ hit_conditions.exactly text.now }
{
    Some(HitCondition::Exactly(number_of(text)?))
}

// What stands behind `>`.
fn above(text: &str) -> Option<HitCondition>
    ensures { result ≡ above text.now }
{
    match text.strip_prefix('=') {
        Some(rest) => Some(HitCondition::AtLeast(number_of(rest)?)),
        None => Some(HitCondition::AtLeast(number_of(text)?.checked_add(1)?)),
    }
}

// What stands behind `<`.
fn below(text: &str) -> Option<HitCondition>
    ensures { result ≡ below text.now }
{
    match text.strip_prefix('=') {
        Some(rest) => Some(HitCondition::AtMost(number_of(rest)?)),
        None => match number_of(text)? {
            1 => None,
            number => Some(HitCondition::AtMost(number - 1)),
        },
    }
}

// What stands behind `=`.
fn equals(text: &str) -> Option<HitCondition>
    ensures { result ≡ equals text.now }
{
    match text.strip_prefix('=') {
        Some(rest) => exactly(rest),
        None => exactly(text),
    }
}

/// Reads a hit condition: a number from 1 to 4,294,967,295, or one of the signs `=`, `==`, `>`, `>=`, `<`,
/// `<=` and `%` and such a number. One that no count meets is refused too.
pub fn hit_condition(text: &str) -> Option<HitCondition>
    ensures { result ≡ hit_condition_of text.now }
{
    let text = text.trim();
    if let Some(rest) = text.strip_prefix('>') {
        return above(rest);
    }
    if let Some(rest) = text.strip_prefix('<') {
        return below(rest);
    }
    if let Some(rest) = text.strip_prefix('%') {
        return Some(HitCondition::Every(number_of(rest)?));
    }
    if let Some(rest) = text.strip_prefix('=') {
        return equals(rest);
    }
    exactly(text)
}
