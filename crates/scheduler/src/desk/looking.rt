//! The state of the build for the node's job, and how jobs are handed out.
ghost use Rattle.std.specs.Prelude.{◌≡◌, IfErr, IfOk, None, Ok, OnErr, OnOk};
ghost use Rattle.scheduler.specs.Keeping.{IsSameButOut};
ghost use Rattle.scheduler.specs.Looking.{IsLook, out_with_job, unit_of_job};
ghost use Rattle.scheduler.specs.Posted.{with_unit};
ghost use Rattle.protocol.specs.Step.{job_of_claim};
ghost use Rattle.job_folder.specs.Refusals.{IsOfSystem};
ghost use Rattle.job_folder.specs.Tasks.{name_of, task_of};

use crate::desk::Desk;
use crate::posted::{Posted, is_among, push};
use crate::reading::{Look, looked};
use claims::Job;
use job_folder::{Answer, Name, WorkFault};
use member::Member;

impl Desk<'_> {
    /// The state of the build for the member's job, if it has one that this host didn't give back.
    /// The job is handed out if it isn't out yet, or if its file is gone, unless it has an answer.
    ///
    /// # Errors
    ///
    /// Out of memory; what the system refused.
    pub fn look(&mut self, rt: &HostRuntime, member: &Member<'_>) -> Result<Look, WorkFault>
        ensures out { OnOk result
            (self.new.out.items ≡ out_with_job member.now self.old) }
        ensures seen { IfOk result IsLook }
        ensures left { OnErr result (self.new.out.items ≡ self.old.out.items) }
        ensures rest { IsSameButOut self.old self.new }
        ensures idle { unit_of_job member.now (job_of_claim member.now) ≡ None
            → (result ≡ Ok Look.NotYet) × (self.new ≡ self.old) }
        ensures refused { IfErr result IsOfSystem }
    {
        let Some(job) = member.job() else {
            return Ok(Look::NotYet);
        };
        let Some(unit) = member.units().find(&job.path) else {
            return Ok(Look::NotYet);
        };
        if self.returned.contains(&unit) {
            return Ok(Look::NotYet);
        }
        self.looked_for(rt, member.tree_digest(), job, unit)
    }

    /// The state of the build for this job of the unit, in the tree with this digest.
    fn looked_for(
        &mut self,
        rt: &HostRuntime,
        tree: &[u8; 32],
        job: &Job,
        unit: u32,
    ) -> Result<Look, WorkFault>
        ensures out { OnOk result (self.new.out.items
            ≡ with_unit self.old.out.items unit (name_of tree.now (task_of job.now))) }
        ensures seen { IfOk result IsLook }
        ensures left { OnErr result (self.new.out.items ≡ self.old.out.items) }
        ensures rest { IsSameButOut self.old self.new }
        ensures refused { IfErr result IsOfSystem }
    {
        let name = Name::of(rt.alloc(), tree, job)?;
        let answer = self.folder.answer(rt, &name)?;
        let is_new = matches!(&answer, Answer::NotYet);
        let look = looked(rt.alloc(), answer)?;
        self.hand_out(rt, tree, job, Posted { unit, name }, is_new)?;
        Ok(look)
    }

    /// Hands out the unit's job if it isn't out. A new job is posted, and so is one whose file is
    /// gone.
    fn hand_out(
        &mut self,
        rt: &HostRuntime,
        tree: &[u8; 32],
        job: &Job,
        posted: Posted,
        is_new: bool,
    ) -> Result<(), WorkFault>
        ensures out { OnOk result
            (self.new.out.items ≡ with_unit self.old.out.items posted.unit posted.name) }
        ensures left { OnErr result (self.new.out.items ≡ self.old.out.items) }
        ensures rest { IsSameButOut self.old self.new }
        ensures refused { IfErr result IsOfSystem }
    {
        let is_out = is_among(self.out.as_slice(), posted.unit);
        if is_new && !(is_out && self.is_posted(rt, &posted.name)) {
            drop(self.folder.post(rt, tree, job)?);
        }
        if is_out {
            return Ok(());
        }
        push(&mut self.out, posted)?;
        Ok(())
    }

    /// Whether the job of this name is posted. If the system refuses to say, it counts as not
    /// posted.
    fn is_posted(&self, rt: &HostRuntime, name: &Name) -> bool {
        matches!(self.folder.is_posted(rt, name), Ok(true))
    }
}
