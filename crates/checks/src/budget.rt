ghost use Rattle.std.specs.Prelude.{◌≡◌};
ghost use Rattle.checks.specs.declared.budget.BoundedError.TheVariants.{Fault};

use packed::Fault;
use std::error::Error;
use std::fmt;

/// The number of bytes of texts and of signature blobs that may still be read.
#[derive(Clone, Copy, Debug, PartialEq, Eq)]
pub enum Budget {
    /// No limit.
    Unbounded,
    /// At most this number of bytes.
    Left(u64),
}

impl Budget {
    ghost use Rattle.std.specs.Prelude.{OnSome, IfNone};
    ghost use Rattle.checks.specs.Budgets.{Takes, IsBelow};

    /// Subtracts the bytes of a text or a blob; `None` if fewer are left.
    pub(crate) fn spend(&mut self, bytes: usize) -> Option<()>
        ensures takes { OnSome result (Takes self.old self.new bytes) }
        ensures spent { IfNone result (IsBelow self.old bytes) }
    {
        if let Budget::Left(left) = *self {
            *self = Budget::Left(left.checked_sub(bytes as u64)?);
        }
        Some(())
    }
}

/// The reason why bytes were not opened within a budget.
#[derive(Clone, Copy, Debug, PartialEq, Eq)]
pub enum BoundedError {
    /// The first rule that they break.
    Fault(Fault),
    /// The budget was spent before all rules were checked.
    BudgetSpent,
}

impl From<Fault> for BoundedError {
    ghost from_gives = { λ fault error. error ≡ Fault fault };

    fn from(fault: Fault) -> Self {
        BoundedError::Fault(fault)
    }
}

impl fmt::Display for BoundedError {
    /// Writes the fault in the same form as `Fault` does, or the words `budget spent`.
    fn fmt<W: fmt::Write>(&self, f: &mut fmt::Formatter<W>) -> fmt::Result {
        match self {
            BoundedError::Fault(fault) => write!(f, "{fault}"),
            BoundedError::BudgetSpent => f.write_str("budget spent"),
        }
    }
}

impl Error for BoundedError {}
