// Rows: a rule for the CFA and one for each column.
ghost use Rattle.std.specs.Prelude.{◌≡◌, length};
ghost use Rattle.unwind.specs.Rows as spec;

/// How many columns are kept: those of x0 to x31.
const COLUMNS: usize = 32;

/// How the value that a register has in the caller is found (DWARF 5, 6.4.1). Offsets are signed, and modulo 2^64.
#[derive(Clone, Copy, PartialEq, Eq)]
pub enum Rule {
    /// It is not known.
    Undefined,
    /// It is the same.
    Same,
    /// It is saved at the CFA and this offset.
    Offset(u64),
    /// It is the CFA and this offset.
    Value(u64),
    /// It is the value of another column.
    Register(u64),
    /// A DWARF expression gives it.
    Expression,
}

/// The rule of the Canonical Frame Address.
#[derive(Clone, Copy, PartialEq, Eq)]
pub struct Cfa {
    /// The column of the register that it is reckoned from.
    pub column: u64,
    /// The number that is added to the register, modulo 2^64.
    pub offset: u64,
    /// A DWARF expression gives it, instead of the two.
    pub expression: bool,
}

/// The row of an address.
#[derive(Clone, Copy)]
pub struct Row {
    /// The rule of the CFA.
    pub cfa: Cfa,
    /// The rules of x0 to x31.
    pub rules: [Rule; 32],
}

/// The rules before the first instruction, if none is for the return address.
fn first_rules() -> [Rule; 32]
    ensures { result ≡ spec.first_rules }
{
    let none = Rule::Undefined;
    let same = Rule::Same;
    let cfa = Rule::Value(0);
    [
        none, same, cfa, same, same, none, none, none, same, same, none, none, none, none, none,
        none, none, none, same, same, same, same, same, same, same, same, same, same, none, none,
        none, none,
    ]
}

impl Row {
    /// The row before the first instruction of a CIE with this return address register.
    #[tactic(auto, unfolding(crate::specs::Rows::first_row))]
    pub(crate) fn first(column: u8) -> Row
        ensures { result ≡ spec.first_row column }
    {
        let cfa = Cfa {
            column: 2,
            offset: 0,
            expression: false,
        };
        let rules = first_rules();
        let row = Row { cfa, rules };
        row.with_rule(u64::from(column), Rule::Same)
    }

    /// The rule of a column, undefined if it is not kept.
    #[tactic(auto, unfolding(crate::specs::Rows::rule_of))]
    pub fn rule(&self, column: u64) -> Rule
        ensures { result ≡ spec.rule_of self.now.rules column }
    {
        if column < 32 {
            self.rules[column as usize]
        } else {
            Rule::Undefined
        }
    }

    /// The row with another rule for a column, if it is kept.
    #[tactic(auto, unfolding(crate::specs::Rows::set_rule))]
    pub(crate) fn with_rule(self, column: u64, rule: Rule) -> Row
        ensures { result ≡ spec.with_rule self column rule }
    {
        let mut row = self;
        if column < 32 {
            row.rules[column as usize] = rule;
        }
        row
    }

    /// The row with another rule for the CFA.
    pub(crate) fn with_cfa(self, column: u64, offset: u64, expression: bool) -> Row
        ensures { result ≡ spec.with_cfa self column offset expression }
    {
        let mut row = self;
        row.cfa = Cfa {
            column,
            offset,
            expression,
        };
        row
    }
}

impl Default for Row {
    /// A row without any rule.
    fn default() -> Row {
        Row {
            cfa: Cfa {
                column: 0,
                offset: 0,
                expression: false,
            },
            rules: [Rule::Undefined; COLUMNS],
        }
    }
}
