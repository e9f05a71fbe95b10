// The rules of a run's steps.
ghost use Rattle.std.specs.Prelude.{◌≡◌};
ghost use Rattle.runs.specs.Rule.{rule_number, rule_of};

// By document 01's numbers: the byte of an S record.
#[derive(Clone, Copy, Debug, PartialEq, Eq)]
pub enum Rule {
    Assume = 0,
    LaRwEq = 1,
    LaDisequality = 2,
    LaTotality = 3,
    LaTautology = 4,
    LaGeneric = 5,
    BoundedFarkas = 6,
    PolySimp = 7,
    PolySimpRel = 8,
}

// The rule that a byte names.
pub fn rule_of(byte: u8) -> Option<Rule>
    ensures { result ≡ rule_of byte }
{
    match byte {
        0 => Some(Rule::Assume),
        1 => Some(Rule::LaRwEq),
        2 => Some(Rule::LaDisequality),
        3 => Some(Rule::LaTotality),
        4 => Some(Rule::LaTautology),
        5 => Some(Rule::LaGeneric),
        6 => Some(Rule::BoundedFarkas),
        7 => Some(Rule::PolySimp),
        8 => Some(Rule::PolySimpRel),
        _ => None,
    }
}

pub fn rule_number(r: Rule) -> u8
    ensures { result ≡ rule_number r }
{
    r as u8
}
