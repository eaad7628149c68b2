// Where IL must be 1: the one place that goes by the class and ISV. IL of class 0x22 is UNKNOWN.
ghost use Rattle.std.specs.Prelude.{◌≡◌};
ghost use Rattle.short_rule.specs.Il.{il_rule};

// Whether IL is 1 where it must be.
pub fn il_rule(class: u32, isv: bool, il: bool) -> bool
    ensures { result ≡ il_rule class isv il }
{
    !iss::il_needed(class, isv) | il
}
