//! Calls of settings.
ghost use Rattle.std.specs.Prelude.{◌≡◌};
ghost use Rattle.api_routes.specs.FormSteps.{IsRead};
ghost use Rattle.api_routes.specs.RouteTable.{seen_found};
ghost use Rattle.api_forms.specs.SettingCalls.{protection_body, hooks_body, set_protection, set_hooks, setting_call};

use api_bodies::body::json_body;
use api_routes::{FormFault, Found, SettingRoute, repo_segment};
use hook_rules::{read_hooks, read_protection};
use lake_calls::{FormRefusal, SettingCall};
use lake_values::{HookRules, Protection};
use setting_forms::RuleFault;
use std::alloc::Global;

// The protection that a body is.
fn protection_body(alloc: Global, body: &[u8]) -> Result<Protection, FormFault>
    ensures { IsRead (λ protection. protection) result (protection_body body.now) }
{
    let value = json_body(alloc, body)?;
    match read_protection(alloc, &value) {
        Ok(protection) => Ok(protection),
        Err(RuleFault::NoMemory) => Err(FormFault::NoMemory),
        Err(RuleFault::Field { rule, name }) => Err(FormFault::Refused(FormRefusal::BadRule {
            rule,
            field: name,
        })),
        Err(RuleFault::NotList) => Err(FormFault::Refused(FormRefusal::BadRules)),
        Err(RuleFault::NotObject(_)) => Err(FormFault::Refused(FormRefusal::BadRules)),
        Err(RuleFault::TooMany(_)) => Err(FormFault::Refused(FormRefusal::BadRules)),
    }
}

// The hooks that a body is.
fn hooks_body(alloc: Global, body: &[u8]) -> Result<HookRules, FormFault>
    ensures { IsRead (λ hooks. hooks) result (hooks_body body.now) }
{
    let value = json_body(alloc, body)?;
    match read_hooks(alloc, &value) {
        Ok(hooks) => Ok(hooks),
        Err(RuleFault::NoMemory) => Err(FormFault::NoMemory),
        Err(RuleFault::Field { rule, name }) => Err(FormFault::Refused(FormRefusal::BadRule {
            rule,
            field: name,
        })),
        Err(RuleFault::NotList) => Err(FormFault::Refused(FormRefusal::BadRules)),
        Err(RuleFault::NotObject(_)) => Err(FormFault::Refused(FormRefusal::BadRules)),
        Err(RuleFault::TooMany(_)) => Err(FormFault::Refused(FormRefusal::BadRules)),
    }
}

// Protection is to be set.
fn set_protection(alloc: Global, repo: &[u8], body: &[u8]) -> Result<SettingCall, FormFault>
    ensures { IsRead (λ call. call) result (set_protection repo.now body.now) }
{
    let repo = repo_segment(alloc, "r", repo)?;
    let protection = protection_body(alloc, body)?;
    Ok(SettingCall::SetProtection { repo, protection })
}

// Hooks are to be set.
fn set_hooks(alloc: Global, repo: &[u8], body: &[u8]) -> Result<SettingCall, FormFault>
    ensures { IsRead (λ call. call) result (set_hooks repo.now body.now) }
{
    let repo = repo_segment(alloc, "r", repo)?;
    let hooks = hooks_body(alloc, body)?;
    Ok(SettingCall::SetHooks { repo, hooks })
}

// The call of a route of settings.
pub(crate) fn setting_call(
    alloc: Global,
    route: SettingRoute,
    found: &Found<'_>,
    body: &[u8],
) -> Result<SettingCall, FormFault>
    ensures { IsRead (λ call. call) result (setting_call route (seen_found found.now) body.now) }
{
    match route {
        SettingRoute::GetProtection => {
            Ok(SettingCall::GetProtection(repo_segment(alloc, "r", found.repo)?))
        }
        SettingRoute::SetProtection => set_protection(alloc, found.repo, body),
        SettingRoute::GetHooks => Ok(SettingCall::GetHooks(repo_segment(alloc, "r", found.repo)?)),
        SettingRoute::SetHooks => set_hooks(alloc, found.repo, body),
    }
}
