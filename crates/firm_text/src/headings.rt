//! The heading of a roster, as far as it decides what lines mean.

/// How the lines of a service are read: as the heading of the roster with which it began says.
#[derive(Clone, Copy)]
pub enum Heading {
    /// A heading of six or seven fields: a tenant's row has no others.
    Plain,
    /// A heading of eight fields: a row may have them too.
    Extended,
}
