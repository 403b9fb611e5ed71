// The templates that are listed, taken one after the other.
ghost use Rattle.std.specs.Prelude.{◌≡◌, ◌++◌, [], ◌∷◌, Decides, List, OnOk};
ghost use Rattle.dsr_compensate.specs.Taking.{AreTakenOf, AreWell, templates_of, with_two_of};
ghost use Rattle.dsr_graph_theory.specs.Lists.{with_one, with_two};
ghost use Rattle.dsr_ir.specs.declared.updates.Template.{Template as TemplateOf};
ghost use Rattle.dsr_meaning.specs.Counting.{IsIn};
ghost use Rattle.dsr_meaning.specs.Typed.{IsTypedAtom};
ghost use Rattle.dsr_compensate.specs.Owned.{IsSound, owner_of};

use crate::combining::compensated_by;
use crate::judging::{Judged, effects_of, may_all_be_made, may_all_serve};
use crate::owner::Owner;
use dsr_ir::{Atom, NoMemory, Seq, Template, Write};
use std::alloc::Global;

// How many templates of a literal are listed at most.
const MOST_TEMPLATES: usize = 64;

// Whether the template is one of those that are listed.
fn is_among(listed: &[Judged], template: &Template) -> bool
    ensures { Decides result (IsIn template.now (templates_of listed.now)) }
{
    for judged in listed {
        if judged.template == *template {
            return true;
        }
    }
    false
}

/// Puts the template behind the listed ones, where there is room, it isn't listed yet, and it is
/// kept.
pub fn take(
    alloc: Global,
    owner: &Owner,
    atom: &Atom,
    template: Template,
    listed: &mut Vec<Judged>,
) -> Result<(), NoMemory>
    requires sound { IsSound owner.now }
    requires atom { IsTypedAtom owner.now.spec.now owner.now.constraint.now.quant atom.now }
    requires well { AreWell (owner_of owner.now) listed.old.items }
    ensures well { OnOk result (AreWell (owner_of owner.now) listed.new.items) }
    ensures taken { OnOk result ((all : List TemplateOf)
        → AreTakenOf (owner_of owner.now) atom.now all (templates_of listed.old.items)
        → AreTakenOf (owner_of owner.now) atom.now (all ++ template ∷ []) (templates_of listed.new.items)) }
{
    if listed.len() >= MOST_TEMPLATES {
        return Ok(());
    }
    if is_among(listed, &template) {
        return Ok(());
    }
    if !may_all_be_made(owner, &template) {
        return Ok(());
    }
    let updates = template.updates.items();
    let effects = effects_of(alloc, owner, template.goal, updates)?;
    if !may_all_serve(owner, template.goal, atom, updates, &effects) {
        return Ok(());
    }
    let effects = Seq::new(effects);
    listed.push(Judged { template, effects })?;
    Ok(())
}

/// Takes the template with each one of the writes, in order.
pub fn take_ones(
    alloc: Global,
    owner: &Owner,
    atom: &Atom,
    template: &Template,
    writes: &[Write],
    listed: &mut Vec<Judged>,
) -> Result<(), NoMemory>
    requires sound { IsSound owner.now }
    requires atom { IsTypedAtom owner.now.spec.now owner.now.constraint.now.quant atom.now }
    requires well { AreWell (owner_of owner.now) listed.old.items }
    ensures well { OnOk result (AreWell (owner_of owner.now) listed.new.items) }
    ensures taken { OnOk result ((all : List TemplateOf)
        → AreTakenOf (owner_of owner.now) atom.now all (templates_of listed.old.items)
        → AreTakenOf (owner_of owner.now) atom.now (all ++ with_one (template.now, writes.now))
        (templates_of listed.new.items)) }
{
    for write in writes {
        let next = compensated_by(alloc, template, &[*write])?;
        take(alloc, owner, atom, next, listed)?;
    }
    Ok(())
}

// Takes the template with the write and each one of those behind it.
fn take_twos_of(
    alloc: Global,
    owner: &Owner,
    atom: &Atom,
    template: &Template,
    write: &Write,
    rest: &[Write],
    listed: &mut Vec<Judged>,
) -> Result<(), NoMemory>
    requires sound { IsSound owner.now }
    requires atom { IsTypedAtom owner.now.spec.now owner.now.constraint.now.quant atom.now }
    requires well { AreWell (owner_of owner.now) listed.old.items }
    ensures well { OnOk result (AreWell (owner_of owner.now) listed.new.items) }
    ensures taken { OnOk result ((all : List TemplateOf)
        → AreTakenOf (owner_of owner.now) atom.now all (templates_of listed.old.items)
        → AreTakenOf (owner_of owner.now) atom.now (all ++ with_two_of template.now write.now rest.now)
        (templates_of listed.new.items)) }
{
    for later in rest {
        let next = compensated_by(alloc, template, &[*write, *later])?;
        take(alloc, owner, atom, next, listed)?;
    }
    Ok(())
}

/// Takes the template with each two of the writes, the earlier varying slowest.
pub fn take_twos(
    alloc: Global,
    owner: &Owner,
    atom: &Atom,
    template: &Template,
    writes: &[Write],
    listed: &mut Vec<Judged>,
) -> Result<(), NoMemory>
    requires sound { IsSound owner.now }
    requires atom { IsTypedAtom owner.now.spec.now owner.now.constraint.now.quant atom.now }
    requires well { AreWell (owner_of owner.now) listed.old.items }
    ensures well { OnOk result (AreWell (owner_of owner.now) listed.new.items) }
    ensures taken { OnOk result ((all : List TemplateOf)
        → AreTakenOf (owner_of owner.now) atom.now all (templates_of listed.old.items)
        → AreTakenOf (owner_of owner.now) atom.now (all ++ with_two (template.now, writes.now))
        (templates_of listed.new.items)) }
{
    for (place, write) in writes.iter().enumerate() {
        take_twos_of(
            alloc,
            owner,
            atom,
            template,
            write,
            &writes[place + 1..],
            listed,
        )?;
    }
    Ok(())
}
