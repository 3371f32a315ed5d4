ghost use Rattle.http_front.specs.Requests.{IsUnique};
ghost use Rattle.http_front.specs.Reads.{IsFaultless};

/// A law: two splits of the same bytes into complete requests and a rest that begins with none are equal. So which requests a stream
/// has does not depend on how it was cut.
pub fn requests_are_unique()
    ensures { IsUnique }
{}

/// A law: bytes that go on to be complete requests and nothing else are not refused, and are not cut short where nothing more comes.
pub fn complete_requests_meet_no_fault()
    ensures { IsFaultless }
{}
