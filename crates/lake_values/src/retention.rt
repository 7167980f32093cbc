//! Which moments and which rules of retention count for a branch.
ghost use Rattle.std.specs.Prelude.{◌≡◌};
ghost use Rattle.lake_values.specs.Retention.{cutoff, days_of};

use crate::settings::Rules;
use lake_base::names::RefName;

/// So many days before now, in seconds since 1970, and 0 where that is below 0. It takes no memory.
pub fn cutoff(now: u64, days: u32) -> u64
    ensures { result ≡ cutoff now days }
{
    now.saturating_sub(u64::from(days) * 86400)
}

/// For how many days a branch keeps what it has left behind: by the first rule of its name, else the default.
/// It takes no memory.
pub fn days_of(rules: &Rules, branch: &RefName) -> u32
    ensures { result ≡ days_of rules.now branch.now }
{
    for rule in rules.branches.as_slice() {
        if rule.branch.as_slice() == branch.as_slice() {
            return rule.days;
        }
    }
    rules.default_days
}
