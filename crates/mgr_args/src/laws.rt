//! A theorem about command lines. The function does nothing: its contract is the theorem.
ghost use Rattle.std.specs.Prelude.{◌≡◌, ◌∷◌, [], codes};
ghost use Rattle.mgr_args.specs.CommandLine.{wish_of};
ghost use Rattle.mgr_args.specs.Job.{IsFaultOf, IsJobOf};
ghost use Rattle.mgr_args.specs.declared.given.Shown.{Shown};
ghost use Rattle.mgr_args.specs.declared.job.Job.{Job};
ghost use Rattle.mgr_args.specs.declared.job.JobFault.{JobFault};
ghost use Rattle.mgr_args.specs.Memory.{JobMemory};

/// `mgr show` alone shows all of standard input, or there is not the memory to say so.
pub fn show_alone_reads_standard_input()
    ensures job { (job : Job) → IsJobOf (wish_of (codes "mgr" ∷ codes "show" ∷ [])) job
        → job ≡ Job.Show Shown.Input }
    ensures fault { (fault : JobFault) → IsFaultOf (wish_of (codes "mgr" ∷ codes "show" ∷ [])) fault
        → fault ≡ JobMemory }
{}
