//! What is written of each section of a merge.
ghost use Rattle.std.specs.Prelude.{◌≡◌, ◌≤◌, ◌+◌, ◌++◌, ◌∷◌, [], IfOk, OnOk, false, replicate};
ghost use Rattle.scm_types.specs.declared.section.Section.{Section};
ghost use Rattle.scm_types.specs.declared.section.Section.TheVariants.{Changed};
ghost use Rattle.scm_merge.specs.declared.roles.Role.TheVariants.{Settled};
ghost use Rattle.scm_merge.specs.Roles.{IsRolesStep, conflict_roles, roles_of};

use crate::open::has_taken;
use scm_types::{Section, SectionChangedLine};
use std::alloc::{AllocError, Global};

/// What is written of a section.
#[derive(Clone, Copy)]
pub(crate) enum Role {
    /// The lines that are taken: the section is in no open conflict.
    Settled,

    /// Our lines of an open conflict.
    Ours,

    /// The lines of the base in an open conflict.
    Base,

    /// Their lines of an open conflict.
    Theirs,
}

/// What is known of a conflict that has begun.
#[derive(Clone, Copy)]
pub(crate) struct Begun {
    /// How many of its sections are seen: 0 to 2.
    pub(crate) seen: usize,

    /// Whether an item of these is taken.
    pub(crate) is_taken: bool,
}

/// Adds the roles of `count` sections that are in no open conflict.
fn push_settled(roles: &mut Vec<Role>, count: usize) -> Result<(), AllocError>
    ensures { OnOk result (roles.new.items ≡ roles.old.items ++ replicate count Settled) }
{
    'settled: for _ in 0..count {
        roles.push(Role::Settled)?;
    }
    Ok(())
}

/// Adds three roles.
fn push_three(
    roles: &mut Vec<Role>,
    first: Role,
    second: Role,
    third: Role,
) -> Result<(), AllocError>
    ensures { OnOk result (roles.new.items
        ≡ roles.old.items ++ first ∷ second ∷ third ∷ []) }
{
    roles.push(first)?;
    roles.push(second)?;
    roles.push(third)?;
    Ok(())
}

/// Adds the roles of the three sections of a conflict.
fn push_conflict_roles(roles: &mut Vec<Role>, is_settled: bool) -> Result<(), AllocError>
    ensures { OnOk result (roles.new.items ≡ roles.old.items ++ conflict_roles is_settled) }
{
    if is_settled {
        push_three(roles, Role::Settled, Role::Settled, Role::Settled)
    } else {
        push_three(roles, Role::Ours, Role::Base, Role::Theirs)
    }
}

/// Goes over a section of changed lines, and adds the roles that it decides.
fn push_changed(
    roles: &mut Vec<Role>,
    begun: Begun,
    lines: &[SectionChangedLine<'_>],
) -> Result<Begun, AllocError>
    requires { begun.seen ≤ 2 }
    ensures { IfOk result (IsRolesStep begun (Changed lines.now) roles.old.items roles.new.items) }
{
    let found = has_taken(lines);
    // `|`: one branch for the prover
    let is_taken = begun.is_taken | found;
    if begun.seen == 2 {
        push_conflict_roles(roles, is_taken)?;
        return Ok(Begun {
            seen: 0,
            is_taken: false,
        });
    }
    Ok(Begun {
        seen: begun.seen + 1,
        is_taken,
    })
}

/// Goes over a section that belongs to no conflict, and adds the roles that it decides.
fn push_other(roles: &mut Vec<Role>, seen: usize) -> Result<Begun, AllocError>
    requires { seen ≤ 2 }
    ensures roles { OnOk result (roles.new.items ≡ roles.old.items ++ replicate (seen + 1) Settled) }
    ensures begun { IfOk result (λ begun. begun ≡ record { seen = 0; is_taken = false }) }
{
    push_settled(roles, seen + 1)?;
    Ok(Begun {
        seen: 0,
        is_taken: false,
    })
}

/// Goes over a section, and adds the roles that it decides.
fn push_step(
    roles: &mut Vec<Role>,
    begun: Begun,
    section: &Section<'_>,
) -> Result<Begun, AllocError>
    requires { begun.seen ≤ 2 }
    ensures { IfOk result (IsRolesStep begun section.now roles.old.items roles.new.items) }
{
    match section {
        Section::Unchanged { .. } => push_other(roles, begun.seen),
        Section::Changed { lines } => push_changed(roles, begun, lines.as_slice()),
        Section::FileMode { .. } => push_other(roles, begun.seen),
        Section::Binary { .. } => push_other(roles, begun.seen),
    }
}

/// Returns the role of each section.
pub(crate) fn roles_of(alloc: Global, sections: &[Section<'_>]) -> Result<Vec<Role>, AllocError>
    ensures { IfOk result (λ roles. roles.items ≡ roles_of sections.now) }
{
    let mut roles = Vec::with_capacity(alloc, sections.len())?;
    let mut begun = Begun {
        seen: 0,
        is_taken: false,
    };
    for section in sections {
        begun = push_step(&mut roles, begun, section)?;
    }
    push_settled(&mut roles, begun.seen)?;
    Ok(roles)
}
