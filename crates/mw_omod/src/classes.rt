// The class constants and attribute operators of a module, and the operators of configurations.
ghost use Rattle.std.specs.Prelude.{◌≡◌};
ghost use Rattle.mw_omod.specs.Objects.{role_of};

use mw_term::{OpId, Seq, SortId, numbered};

/// What an operator is to objects.
#[derive(Clone, Copy, Drop)]
pub enum Role {
    /// Neither of the others.
    Other,
    /// The constant of a class, with the class's sort.
    Class(SortId),
    /// The operator of an attribute, with the sort that its class declares for it.
    Attribute(SortId),
}

/// The operators of objects.
#[derive(Drop)]
pub struct Classes {
    /// Of each operator of the signature, in order.
    pub roles: Seq<Role>,
    /// The empty set of attributes.
    pub none: OpId,
    /// What joins attributes.
    pub comma: OpId,
    /// What makes an object of a name, a class and attributes.
    pub object: OpId,
    /// What joins the elements of a configuration.
    pub union: OpId,
    /// The sort of sets of attributes.
    pub set: SortId,
}

impl Classes {
    pub(crate) fn role(&self, operator: OpId) -> Role
        ensures { result ≡ role_of self.now operator }
    {
        match numbered(self.roles.as_slice(), operator) {
            Some(role) => *role,
            None => Role::Other,
        }
    }
}
