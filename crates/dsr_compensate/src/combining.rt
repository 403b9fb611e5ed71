// Templates with more writes behind their own.
ghost use Rattle.std.specs.Prelude.{◌≡◌, IfOk};
ghost use Rattle.dsr_graph_theory.specs.Lists as lists;

use dsr_ir::{NoMemory, Seq, Template, Update, Write};
use std::alloc::Global;

fn with_writes(alloc: Global, update: &Update, more: &[Write]) -> Result<Update, NoMemory>
    ensures { IfOk result (λ u. u ≡ lists.with_writes more.now update.now) }
{
    let mut writes = Vec::from_slice(alloc, update.writes.items())?;
    writes.extend_from_slice(more)?;
    Ok(Update {
        rule: update.rule,
        place: update.place,
        at: update.at,
        writes: Seq::new(writes),
        fresh: update.fresh,
    })
}

/// The template, each of whose updates has these writes behind its own.
pub fn compensated_by(
    alloc: Global,
    template: &Template,
    more: &[Write],
) -> Result<Template, NoMemory>
    ensures { IfOk result (λ t. t ≡ lists.compensated_by template.now more.now) }
{
    let mut updates = Vec::new(alloc);
    for update in template.updates.items() {
        let update = with_writes(alloc, update, more)?;
        updates.push(update)?;
    }
    Ok(Template {
        goal: template.goal,
        updates: Seq::new(updates),
    })
}
