ghost use Rattle.std.specs.Prelude.{◌≡◌};
ghost use Rattle.op_data.specs.Tasks.{IsOfData, op_of, wants};

use acl_text::Perm;
use head_text::Range;
use lease_state::AppendLease;
use namespace_model::Op;
use path_text::Path;

// What is to be done with a file.
#[derive(Clone, Copy)]
pub(crate) enum Task {
    // Its bytes, or a range of them, are read.
    Read(Option<Range>),
    // The body of the request is appended to it.
    Append(Appending),
    // What is staged below a position, in bytes, is taken into it; the flag says whether the rest is kept.
    Flush(u64, bool),
}

// How a body is appended.
#[derive(Clone, Copy)]
pub(crate) struct Appending {
    // Where it begins, in bytes.
    pub(crate) position: u64,
    // Whether the file is flushed to its end.
    pub(crate) flush: bool,
    // Whether what is staged behind it is kept then.
    pub(crate) retain: bool,
    // What is done with the lease.
    pub(crate) action: AppendLease,
}

// The path that an operation names, and what it asks of the file there.
pub(crate) fn task_of(op: &Op) -> (&Path, Task)
    requires { IsOfData op.now }
    ensures { op.now ≡ op_of result.0.now result.1 }
{
    match op {
        Op::Read { path, range } => (path, Task::Read(*range)),
        Op::Append {
            path,
            position,
            flush,
            retain,
            action,
        } => (
            path,
            Task::Append(Appending {
                position: *position,
                flush: *flush,
                retain: *retain,
                action: *action,
            }),
        ),
        Op::Flush {
            path,
            position,
            retain,
        } => (path, Task::Flush(*position, *retain)),
        _ => unreachable!(),
    }
}

// The permissions on the file without which a task is denied.
pub(crate) fn wants(task: Task) -> Perm
    ensures { result ≡ wants task }
{
    match task {
        Task::Read(_) => Perm::READ,
        Task::Append(_) | Task::Flush(_, _) => Perm::READ_WRITE,
    }
}
