ghost use Rattle.path_order.specs.Followed.{PagesCover};

/// Pages that follow one another to the end, each by the token of the one before, cover what is below their directory behind the first
/// token, and each path comes once, where no path comes or goes between the calls.
pub fn pages_cover_their_list()
    ensures { PagesCover }
{}
