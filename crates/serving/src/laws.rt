ghost use Rattle.std.specs.Prelude.{List};
ghost use Rattle.namespace_model.specs.declared.request.Entry.{Entry};
ghost use Rattle.serving.specs.Texts.{SpellsTheRun};

/// A law: the text that is worked out for an entry on the tree that the entries before it leave is the text of the
/// reply that the run of the whole journal gives at its place, under that place and with the entry's moment.
pub fn replies_are_those_of_the_run()
    ensures { (journal : List Entry) → SpellsTheRun journal }
{}
