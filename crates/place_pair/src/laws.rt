//! What later crates rest on, of two tenants.
ghost use Rattle.std.specs.Prelude.{ℕ, length};
ghost use Rattle.machine_image.specs.Vocabulary.{ImageValue, IsImage};
ghost use Rattle.machine_history.specs.Vocabulary.{History, IsTenantOf, LeavesAloneFor};
ghost use Rattle.place_pair.specs.Tenants.{AreTenants, RunsAsAloneOver};

/// Both are each a tenant of the whole.
pub fn both_are_tenants()
    ensures first { (whole first second : ImageValue) → AreTenants whole first second → IsTenantOf whole first }
    ensures second { (whole first second : ImageValue) → AreTenants whole first second → IsTenantOf whole second }
{}

/// Each of the two that a history leaves alone for n cycles runs in them as its image does by itself on a machine without faults,
/// whatever is done to the other and to all the rest, at any instant.
pub fn either_runs_alone()
    ensures first { (whole first second : ImageValue) (h : History) (n : ℕ) → IsImage whole → AreTenants whole first second →
        LeavesAloneFor n h whole first → RunsAsAloneOver h n whole first 0 }
    ensures second { (whole first second : ImageValue) (h : History) (n : ℕ) → IsImage whole → AreTenants whole first second →
        LeavesAloneFor n h whole second → RunsAsAloneOver h n whole second (length first.inputs) }
{}
