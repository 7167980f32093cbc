//! What clients ask of a lake.

use crate::heads::HeadCall;
use crate::names::NamingCall;
use crate::objects::ObjectCall;
use lake_base::RepoName;
use lake_values::{HookRules, Protection};

/// A call of settings.
#[derive(Debug)]
pub enum SettingCall {
    GetProtection(RepoName),
    SetProtection {
        repo: RepoName,
        protection: Protection,
    },
    GetHooks(RepoName),
    SetHooks {
        repo: RepoName,
        hooks: HookRules,
    },
}

/// A call is let go part by part, written out: what is above proves it once, and not anew for each variant.
impl Drop for SettingCall {
    fn drop(self) {
        match self {
            SettingCall::GetProtection(_) => {}
            SettingCall::SetProtection {
                repo: _,
                protection: _,
            } => {}
            SettingCall::GetHooks(_) => {}
            SettingCall::SetHooks { repo: _, hooks: _ } => {}
        }
    }
}

/// A call: one of the interface's methods and paths, with what it names. Calls of the collector, and of the setting
/// that it goes by, aren't there yet.
#[derive(Debug, Drop)]
pub enum Call {
    Names(NamingCall),
    Objects(ObjectCall),
    Heads(HeadCall),
    Settings(SettingCall),
}
