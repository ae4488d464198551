ghost use Rattle.std.specs.Prelude.{◌≡◌, false};
ghost use Rattle.hq_base.specs.Text.{has_zero};
ghost use Rattle.hq_load_meta_tables.specs.Field.{field_name};

/// A member of the file's objects.
#[derive(Clone, Copy)]
pub enum Field {
    AllowAggregations,
    ArrayRelationships,
    Column,
    ColumnConfig,
    ColumnMapping,
    Columns,
    Configuration,
    CustomColumnNames,
    CustomName,
    CustomRootFields,
    Customization,
    DisabledForRoles,
    Filter,
    ForeignKeyConstraintOn,
    GraphqlSchemaIntrospection,
    InheritedRoles,
    Kind,
    Limit,
    ManualConfiguration,
    Metadata,
    Name,
    ObjectRelationships,
    Permission,
    QueryRootFields,
    RemoteTable,
    Role,
    RoleName,
    RoleSet,
    Select,
    SelectAggregate,
    SelectByPk,
    SelectPermissions,
    Sources,
    SubscriptionRootFields,
    Table,
    Tables,
    Using,
    Version,
}

impl Field {
    /// Its name in the file.
    #[tactic(auto, unfolding(crate::specs::Field::field_name))]
    pub fn name(self) -> &'static str
        ensures name { result.now ≡ field_name self }
        ensures clean { has_zero result.now ≡ false }
    {
        match self {
            Field::AllowAggregations => "allow_aggregations",
            Field::ArrayRelationships => "array_relationships",
            Field::Column => "column",
            Field::ColumnConfig => "column_config",
            Field::ColumnMapping => "column_mapping",
            Field::Columns => "columns",
            Field::Configuration => "configuration",
            Field::CustomColumnNames => "custom_column_names",
            Field::CustomName => "custom_name",
            Field::CustomRootFields => "custom_root_fields",
            Field::Customization => "customization",
            Field::DisabledForRoles => "disabled_for_roles",
            Field::Filter => "filter",
            Field::ForeignKeyConstraintOn => "foreign_key_constraint_on",
            Field::GraphqlSchemaIntrospection => "graphql_schema_introspection",
            Field::InheritedRoles => "inherited_roles",
            Field::Kind => "kind",
            Field::Limit => "limit",
            Field::ManualConfiguration => "manual_configuration",
            Field::Metadata => "metadata",
            Field::Name => "name",
            Field::ObjectRelationships => "object_relationships",
            Field::Permission => "permission",
            Field::QueryRootFields => "query_root_fields",
            Field::RemoteTable => "remote_table",
            Field::Role => "role",
            Field::RoleName => "role_name",
            Field::RoleSet => "role_set",
            Field::Select => "select",
            Field::SelectAggregate => "select_aggregate",
            Field::SelectByPk => "select_by_pk",
            Field::SelectPermissions => "select_permissions",
            Field::Sources => "sources",
            Field::SubscriptionRootFields => "subscription_root_fields",
            Field::Table => "table",
            Field::Tables => "tables",
            Field::Using => "using",
            Field::Version => "version",
        }
    }
}
