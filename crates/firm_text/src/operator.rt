//! The operator's requests and their replies.
ghost use Rattle.std.specs.Prelude.{◌≡◌};
ghost use Rattle.firm_text.specs.OperatorRefusals.{operator_code, operator_name};

use firm_rules::{Limits, Name};

/// A request of the operator, on a line whose first word is `+`.
#[derive(Clone, Copy, PartialEq, Eq)]
pub enum OperatorLine {
    /// A tenant of this name is to be admitted, with these limits.
    Admit(Name, Limits),
    /// The tenant of this name is to be retired.
    Retire(Name),
    /// The line asks for neither.
    Faulty(OperatorRefusal),
}

/// The reply to the operator.
#[derive(Clone, Copy, PartialEq, Eq)]
pub enum OperatorReply {
    /// The tenant of this name was admitted.
    Admitted(Name),
    /// The tenant of this name was retired.
    Retired(Name),
    /// Nothing was done.
    Refused(OperatorRefusal),
}

/// Why an operator's line is refused. Checks are made in the order of the variants.
#[derive(Clone, Copy, Debug, PartialEq, Eq)]
pub enum OperatorRefusal {
    /// It is neither `admit` nor `retire` with one word.
    BadCommand,
    /// A tenant's row has not as many fields as a roster's.
    BadRow,
    /// The tenant's name has not the form of a name.
    BadName,
    /// A field is not a number in its range.
    BadNumber,
    /// A tenant that is there was to be admitted.
    TenantExists,
    /// A tenant that is not there was to be retired.
    NoSuchTenant,
    /// No empty place has an admission left.
    Full,
    /// Memory was refused; the place stays empty.
    Memory,
}

impl OperatorRefusal {
    /// The number of the refusal, 21 to 28.
    pub fn code(self) -> u32
        ensures { result ≡ operator_code self }
    {
        match self {
            OperatorRefusal::BadCommand => 21,
            OperatorRefusal::BadRow => 22,
            OperatorRefusal::BadName => 23,
            OperatorRefusal::BadNumber => 24,
            OperatorRefusal::TenantExists => 25,
            OperatorRefusal::NoSuchTenant => 26,
            OperatorRefusal::Full => 27,
            OperatorRefusal::Memory => 28,
        }
    }

    /// The name of the refusal, as a reply to the operator prints it.
    pub fn name(self) -> &'static str
        ensures { result.now ≡ operator_name self }
    {
        match self {
            OperatorRefusal::BadCommand => "operator-command",
            OperatorRefusal::BadRow => "operator-row",
            OperatorRefusal::BadName => "operator-name",
            OperatorRefusal::BadNumber => "operator-number",
            OperatorRefusal::TenantExists => "tenant-exists",
            OperatorRefusal::NoSuchTenant => "no-such-tenant",
            OperatorRefusal::Full => "operator-full",
            OperatorRefusal::Memory => "operator-memory",
        }
    }
}
