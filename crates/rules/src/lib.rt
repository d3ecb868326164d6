// The rules by which retain keeps an element. They are data, where the Rust takes a closure.
#![tactic(auto)]

ghost use Rattle.std.specs.Prelude.{◌≡◌};
ghost use Rattle.rules.specs.Rules.{keeps_of};

#[derive(Clone, Copy)]
pub enum Rule {
    // The value is from lo to hi.
    Values { lo: u64, hi: u64 },
    // The value masked equals the wanted number.
    Masked { mask: u64, wanted: u64 },
    // The index is from lo to hi.
    Indexes { lo: u32, hi: u32 },
}

// Whether a rule keeps the element of this index and value.
pub fn keeps(rule: Rule, index: u32, value: u64) -> bool
    ensures { result ≡ keeps_of rule index value }
{
    match rule {
        Rule::Values { lo, hi } => {
            if value < lo {
                return false;
            }
            value <= hi
        }
        Rule::Masked { mask, wanted } => value & mask == wanted,
        Rule::Indexes { lo, hi } => {
            if index < lo {
                return false;
            }
            index <= hi
        }
    }
}
