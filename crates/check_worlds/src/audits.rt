//! Audits of agreed lists.
ghost use Rattle.std.specs.Prelude.{◌≡◌, IfErr, IfOk};
ghost use Rattle.auditing.specs.declared.verdict.Verdict.TheVariants.{Yes};

use auditing::{Verdict, only_one_verdict};
use dpbr_audit::audit_list;
use dpbr_run::printed_lists_are_read;
use listing::Tree;
use package_lists::{ListFault, list_text, lists_and_faults};
use simulator::World;
use std::alloc::Global;

/// The verdict on the agreed list.
pub fn audit_of_printed(alloc: Global, tree: &Tree, world: &World<'_>) -> Result<Verdict, ListFault>
    requires { world.now.world.division.tree ≡ tree.now }
    ensures yes { IfOk result (λ v. v ≡ Yes) }
    ensures memory { IfErr result (λ e. e ≡ ListFault.Memory) }
{
    lists_and_faults();
    printed_lists_are_read();
    only_one_verdict();
    let list = world.agreed();
    let text = list_text(alloc, list)?;
    audit_list(alloc, tree, text.as_slice())
}
