ghost use Rattle.std.specs.Prelude.{◌≡◌, IfOk};
ghost use Rattle.hq_model.specs.Names.{is_admin_name};

use crate::Session;
use hq_base::{Memory, Txt};
use std::alloc::Global;

/// The role of a session: `admin`, or one of the metadata's roles by its name.
#[derive(Drop)]
pub enum Role {
    Admin,
    Named(Txt),
}

impl Role {
    ghost use Rattle.hq_model.specs.Permission.{role_of};

    /// The role of a session. The name `admin` is Admin's.
    pub fn of(alloc: Global, session: &Session) -> Result<Role, Memory>
        ensures { IfOk result (λ role. role ≡ role_of session.now.role) }
    {
        if is_admin(&session.role) {
            return Ok(Role::Admin);
        }
        Ok(Role::Named(session.role.copy(alloc)?))
    }
}

// Whether a role's name is that of admin.
fn is_admin(name: &Txt) -> bool
    ensures { result ≡ is_admin_name name.now }
{
    name.as_str() == "admin"
}
