ghost use Rattle.std.specs.Prelude.{◌≡◌};
ghost use Rattle.reply_marks.specs.Marks.{mark_of};

use namespace_model::Reply;

/// What a reply counts as.
#[derive(Clone, Copy, Debug, PartialEq, Eq)]
pub enum Mark {
    /// Its status is below 400.
    Ok,
    /// It refuses, and not for want of a right.
    Refused,
    /// It refuses for want of a right.
    Denied,
}

impl Mark {
    /// The mark of a reply.
    pub fn of(reply: &Reply) -> Mark
        ensures { result ≡ mark_of reply.now }
    {
        if reply.status < 400 {
            Mark::Ok
        } else if reply.denied.is_none() {
            Mark::Refused
        } else {
            Mark::Denied
        }
    }
}
