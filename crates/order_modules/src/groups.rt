//! The steps on patch groups (Frost et al., SOSP 2007).

ghost use Rattle.std.specs.Prelude.{◌≡◌, OnOk, bytes_eq};
ghost use Rattle.std.specs.List.{list_any};
ghost use Rattle.crash_model.specs.Trace.{step as step_of};
ghost use Rattle.crash_model.specs.declared.steps.Act.TheVariants.{Group, End, Depend};
ghost use Rattle.order_modules.specs.Tracer.{Moves, RefusesAs};

use crate::tracer::Tracer;
use crash_model::names::GroupName;
use crash_model::refusals::TraceFault;
use std::alloc::Allocator;

impl<'a, A: Allocator + Copy> Tracer<'a, A> {
    /// Opens a group. No group may be open, and this one may not have been opened before.
    pub(crate) fn open(&mut self, line: usize, name: &'a GroupName) -> Result<(), TraceFault>
        ensures ok { OnOk result (Moves self.old self.new
            (step_of self.old.log.kind self.old.tracing line (Group name.now))) }
        ensures refused { RefusesAs result (step_of self.old.log.kind self.old.tracing line (Group name.now)) }
    {
        if self.current.is_some() || is_among(name, self.opened.as_slice()) {
            return Err(TraceFault::GroupFault { line });
        }
        self.opened.push(name)?;
        self.current = Some(name);
        Ok(())
    }

    /// Ends the open group.
    pub(crate) fn end(&mut self, line: usize) -> Result<(), TraceFault>
        ensures ok { OnOk result (Moves self.old self.new (step_of self.old.log.kind self.old.tracing line End)) }
        ensures refused { RefusesAs result (step_of self.old.log.kind self.old.tracing line End) }
    {
        let Some(name) = self.current else {
            return Err(TraceFault::GroupFault { line });
        };
        self.ended.push(name)?;
        self.current = None;
        Ok(())
    }

    /// Makes the patches that a group will get wait for those of an ended group.
    pub(crate) fn depend(
        &mut self,
        line: usize,
        later: &'a GroupName,
        earlier: &'a GroupName,
    ) -> Result<(), TraceFault>
        ensures ok { OnOk result (Moves self.old self.new
            (step_of self.old.log.kind self.old.tracing line (Depend later.now earlier.now))) }
        ensures refused { RefusesAs result
            (step_of self.old.log.kind self.old.tracing line (Depend later.now earlier.now)) }
    {
        if !is_among(earlier, self.ended.as_slice())
            || is_same(later, earlier)
            || self.log.has_patch_in(later)
        {
            return Err(TraceFault::GroupFault { line });
        }
        self.log.link(later, earlier)?;
        Ok(())
    }
}

/// Whether a name is among others.
fn is_among(name: &GroupName, names: &[&GroupName]) -> bool
    ensures { result ≡ list_any (λ other. bytes_eq name.now other.now) names.now }
{
    names.iter().any(|other| is_same(name, other))
}

/// Whether two names are the same.
fn is_same(name: &GroupName, other: &GroupName) -> bool
    ensures { result ≡ bytes_eq name.now other.now }
{
    name.same(other)
}
