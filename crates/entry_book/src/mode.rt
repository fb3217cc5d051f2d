//! What happens to the entries that name a bundle's domain when the bundle is dropped?

/// What `drop_bundle` does if entries name the bundle's domain.
#[derive(Clone, Copy, Debug, PartialEq, Eq, Drop)]
pub enum DropMode {
    /// The bundle stays, and the operation is refused.
    Restrict,
    /// These entries are deleted as well.
    Delete,
    /// The domain is removed from these entries, which raises the revision of each by 1.
    Dissociate,
}
