ghost use Rattle.std.specs.Prelude.{◌≡◌};
ghost use Rattle.text_lines.specs.Parsing.{IsAnyRule, IsParsedAs};
ghost use Rattle.text_lines.specs.Text.{rule_word};

use raster_model::RuleKind;

const LEAST: &[u8] = b"least";

const MEAN: &[u8] = b"mean";

const PRODUCT: &[u8] = b"product";

/// The name of a rule.
pub fn rule_name(rule: RuleKind) -> &'static [u8]
    ensures { result.now ≡ rule_word rule }
{
    match rule {
        RuleKind::Least => LEAST,
        RuleKind::Mean => MEAN,
        RuleKind::Product => PRODUCT,
    }
}

/// The rule that has a name.
pub fn rule_of(name: &[u8]) -> Option<RuleKind>
    ensures { IsParsedAs IsAnyRule rule_word name.now result }
{
    if name == LEAST {
        return Some(RuleKind::Least);
    }
    if name == MEAN {
        return Some(RuleKind::Mean);
    }
    if name == PRODUCT {
        return Some(RuleKind::Product);
    }
    None
}
