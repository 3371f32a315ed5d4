ghost use Rattle.std.specs.Prelude.{◌≡◌};
ghost use Rattle.acl_text.specs.Scopes.{in_scope};

/// Which of the lists of a file or a directory an entry is of.
#[derive(Clone, Copy, Debug, PartialEq, Eq)]
pub enum Scope {
    /// The access ACL.
    Access,
    /// The default ACL, which new children of a directory take.
    Default,
}

impl Scope {
    // Whether an entry of the other scope is of this one.
    pub(crate) fn has(self, other: Scope) -> bool
        ensures { result ≡ in_scope self other }
    {
        match self {
            Scope::Access => matches!(other, Scope::Access),
            Scope::Default => matches!(other, Scope::Default),
        }
    }
}
