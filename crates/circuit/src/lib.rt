// Gates of a reversible circuit over numbered lines.
#![tactic(auto)]

ghost use Rattle.std.specs.Prelude.{◌≡◌, Some};
ghost use Rattle.circuit.specs.declared.Gate.TheVariants.{Not};
ghost use Rattle.circuit.specs.Gates.{inside, apart, tcost, inverse};
ghost use Rattle.circuit.specs.Printed.{printed};

use std::fmt;

// A gate: a and b are control lines, t is the target line.
#[derive(Clone, Copy, PartialEq, Eq, Debug)]
pub enum Gate {
    // Flips t.
    Not { t: u16 },
    // Adds a to t.
    Cnot { a: u16, t: u16 },
    // Puts a AND b on t, which has to be 0.
    And { a: u16, b: u16, t: u16 },
    // Clears t, which has to be a AND b.
    Unand { a: u16, b: u16, t: u16 },
}

impl Gate {
    // Whether every line of the gate lies below `width`.
    pub fn lines_inside(self, width: u16) -> bool
        ensures says_inside { result ≡ inside self width }
    {
        match self {
            Gate::Not { t } => t < width,
            Gate::Cnot { a, t } => a < width && t < width,
            Gate::And { a, b, t } | Gate::Unand { a, b, t } => a < width && b < width && t < width,
        }
    }

    // Whether no two lines of the gate are the same.
    pub fn lines_apart(self) -> bool
        ensures says_apart { result ≡ apart self }
    {
        match self {
            Gate::Not { .. } => true,
            Gate::Cnot { a, t } => a != t,
            Gate::And { a, b, t } | Gate::Unand { a, b, t } => a != b && a != t && b != t,
        }
    }

    // How many T gates it costs: four for an and, none for any other.
    pub fn t_cost(self) -> u32
        ensures is_t_cost { result ≡ tcost self }
    {
        match self {
            Gate::And { .. } => 4,
            _ => 0,
        }
    }

    // The gate that undoes this one.
    pub fn inverse(self) -> Gate
        ensures is_inverse { result ≡ inverse self }
    {
        match self {
            Gate::And { a, b, t } => Gate::Unand { a, b, t },
            Gate::Unand { a, b, t } => Gate::And { a, b, t },
            _ => self,
        }
    }
}

// What stands in the unused places of a list of fixed size. By hand: a derive takes a case without fields.
impl Default for Gate {
    ghost is_default = { λ g. g ≡ Not 0 };

    fn default() -> Gate {
        Gate::Not { t: 0 }
    }
}

// The gate's name and its lines, as `and 0 2 4`.
impl fmt::Display for Gate {
    ghost output = { λ g. Some (printed g) };

    fn fmt<W: fmt::Write>(&self, f: &mut fmt::Formatter<W>) -> fmt::Result {
        match *self {
            Gate::Not { t } => write!(f, "not {t}"),
            Gate::Cnot { a, t } => write!(f, "cnot {a} {t}"),
            Gate::And { a, b, t } => write!(f, "and {a} {b} {t}"),
            Gate::Unand { a, b, t } => write!(f, "unand {a} {b} {t}"),
        }
    }
}
