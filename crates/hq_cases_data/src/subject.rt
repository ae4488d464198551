use crate::{catalogs, filters, metadata, rows, schemas};
use hq_cases_file::{Case, Stop, Subject, Words};

/// What cases are about: a file of cases, and the public calls that these go through.
#[derive(Clone, Copy)]
pub enum About {
    Catalogs,
    TableFiles,
    Filters,
    Bindings,
    Metadata,
    OlderMetadata,
    Exports,
    Permissions,
    InheritedPermissions,
    RoleSchemas,
    LookUps,
}

impl About {
    /// Each subject, in the order of its line.
    pub const ALL: [About; 11] = [
        About::Catalogs,
        About::TableFiles,
        About::Filters,
        About::Bindings,
        About::Metadata,
        About::OlderMetadata,
        About::Exports,
        About::Permissions,
        About::InheritedPermissions,
        About::RoleSchemas,
        About::LookUps,
    ];
}

impl Subject for About {
    fn name(self) -> &'static str {
        match self {
            About::Catalogs => "catalogs",
            About::TableFiles => "table_files",
            About::Filters => "filters",
            About::Bindings => "bindings",
            About::Metadata => "metadata",
            About::OlderMetadata => "older_metadata",
            About::Exports => "exports",
            About::Permissions => "permissions",
            About::InheritedPermissions => "inherited_permissions",
            About::RoleSchemas => "role_schemas",
            About::LookUps => "look_ups",
        }
    }

    fn tell(self, rt: &HostRuntime, case: &Case, words: &mut Words) -> Result<(), Stop> {
        let alloc = rt.alloc();
        match self {
            About::Catalogs => catalogs::tell_catalog(alloc, case, words),
            About::TableFiles => rows::tell_table_file(alloc, case, words),
            About::Filters => filters::tell_filter(alloc, case, words),
            About::Bindings => filters::tell_binding(alloc, case, words),
            About::Metadata | About::OlderMetadata => metadata::tell_verdict(alloc, case, words),
            About::Exports => metadata::tell_export(alloc, case, words),
            About::Permissions | About::InheritedPermissions => {
                metadata::tell_permission(alloc, case, words)
            }
            About::RoleSchemas => schemas::tell_role_schema(alloc, case, words),
            About::LookUps => schemas::tell_look_ups(alloc, case, words),
        }
    }
}
