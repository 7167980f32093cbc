//! The types of hooks, with their names and the fields that they ask for.
ghost use Rattle.std.specs.Prelude.{◌≡◌};

/// The type of a hook.
#[derive(Clone, Copy)]
pub(crate) enum HookType {
    RequireMeta,
    DenyPrefix,
    MaxSize,
    MaxChanges,
}

impl HookType {
    ghost use Rattle.hook_rules.specs.HookForms.{type_named, type_name, field_name, type_of};

    // The type of this name.
    pub(crate) fn named(name: &str) -> Option<HookType>
        ensures { result ≡ type_named name.now }
    {
        match name {
            "require_meta" => Some(HookType::RequireMeta),
            "deny_prefix" => Some(HookType::DenyPrefix),
            "max_size" => Some(HookType::MaxSize),
            "max_changes" => Some(HookType::MaxChanges),
            _ => None,
        }
    }

    // Its name.
    pub(crate) fn name(self) -> &'static str
        ensures { result.now ≡ type_name self }
    {
        match self {
            HookType::RequireMeta => "require_meta",
            HookType::DenyPrefix => "deny_prefix",
            HookType::MaxSize => "max_size",
            HookType::MaxChanges => "max_changes",
        }
    }

    // The name of the one field that it asks for.
    pub(crate) fn field(self) -> &'static str
        ensures { result.now ≡ field_name self }
    {
        match self {
            HookType::RequireMeta => "key",
            HookType::DenyPrefix => "prefix",
            HookType::MaxSize => "bytes",
            HookType::MaxChanges => "count",
        }
    }
}
