//! What holds of tasks, of jobs, and of their texts.
ghost use Rattle.job_folder.specs.Laws.{
  NameTellsTheTask,
  TaskTextIsFirst,
  TextTellsTheJob,
  TextTellsTheTask,
  TextTellsTheTree,
};

/// The text of a task determines the digest of its tree.
pub fn text_tells_the_tree()
    ensures { TextTellsTheTree }
{}

/// The text of a task determines the task.
pub fn text_tells_the_task()
    ensures { TextTellsTheTask }
{}

/// The text of a job determines the job.
pub fn text_tells_the_job()
    ensures { TextTellsTheJob }
{}

/// The name of a task determines the task, unless two texts have the same SHA-256.
pub fn name_tells_the_task()
    ensures { NameTellsTheTask }
{}

/// A job's text begins with the text of its task.
pub fn task_text_is_first()
    ensures { TaskTextIsFirst }
{}
